ghost use Rattle.std.specs.Prelude.{◌≡◌, ◌-◌, ◌≤◌, ◌<◌, [], suc, max, IsOk, IfOk, OnOk, OnErr, length, take, reverse};
ghost use Rattle.codec_terms.specs.BlockDecisions.{Block, plane_count, decisions};
ghost use Rattle.codec_terms.specs.Mq.{codeword};
ghost use Rattle.block_passes.specs.Told.{IsBefore};
ghost use Rattle.block_sets.specs.Rebuilt.{block_of};
ghost use Rattle.block_coder.specs.Blocks.{IsBlock};
ghost use Rattle.block_coder.specs.Codes.{HasCoded, IsCodeOf, IsPartOfCode};

use crate::coded::Coded;
use crate::planes::code_planes;
use block_laws::lower_plane_laws;
use block_passes::{PassState, begin};
use block_sets::BlockPlanes;
use mast_base::{Bytes, List, NoMemory};
use mq_coder::{Coder, Ending, States, ending_laws, flushed};
use std::alloc::Global;
use std::marker::Model;

/// A code-block that has been coded from its highest bit-plane down to some plane, and can go on. Another block may be
/// started in its memory.
#[derive(Debug, Drop)]
pub struct PartlyCoded {
    planes: u8,
    endings: Vec<Ending>,
    bytes: Vec<u8>,
    // Those behind the lowest coded plane; of no meaning where none is coded.
    states: States,
}

impl Model for PartlyCoded {
    ghost use Rattle.block_coder.specs.Codes.{Progress};

    ghost Value = { Progress };

    ghost view = { λ s. record { planes = s.planes; endings = s.endings.items; bytes = s.bytes.items; states = s.states } };
}

// Other bytes in the place of all. After `NoMemory` they are as they were.
fn refill(bytes: &mut Vec<u8>, others: &[u8]) -> Result<(), NoMemory>
    ensures ok { OnOk result (bytes.new.items ≡ others.now) }
    ensures err { OnErr result (bytes.new.items ≡ bytes.old.items) }
{
    bytes.reserve(others.len())?;
    bytes.clear();
    bytes.extend_from_slice(others)?;
    Ok(())
}

impl PartlyCoded {
    /// Room for a block, which `start` begins.
    pub fn new(alloc: Global) -> Self
        ensures { result.endings ≡ [] }
    {
        PartlyCoded {
            planes: 0,
            endings: Vec::new(alloc),
            bytes: Vec::new(alloc),
            states: Coder::new(alloc).states(),
        }
    }

    /// Makes this the block, of which no bit-plane is coded.
    pub fn start(&mut self, block: &BlockPlanes<'_>)
        requires { IsBlock block.now }
        ensures of { IsPartOfCode (block_of block.now) self.new }
        ensures none { self.new.endings ≡ [] }
    {
        lower_plane_laws();
        ending_laws();
        self.planes = block.planes.len() as u8;
        self.endings.clear();
        self.bytes.clear();
    }

    /// The number of the block's bit-planes, from the highest that isn't zero down.
    pub fn plane_count(&self) -> usize
        ensures { result ≡ self.now.planes }
    {
        usize::from(self.planes)
    }

    /// The number of those that are coded, which have one ending each, from the highest.
    pub fn coded_count(&self) -> usize
        ensures { result ≡ length self.now.endings }
    {
        self.endings.len()
    }

    /// The length of the codeword that ends behind the plane.
    pub fn length(&self, ending: usize) -> u32
        requires of { (b : Block) × IsPartOfCode b self.now }
        requires within { ending < length self.now.endings }
        ensures { (b : Block) → IsPartOfCode b self.now
            → result ≡ length (codeword (decisions b (self.now.planes - suc ending))) }
    {
        self.endings[ending].length
    }

    /// The codeword of the decisions down to the plane.
    pub fn codeword(&self, alloc: Global, ending: usize) -> Result<Bytes, NoMemory>
        requires of { (b : Block) × IsPartOfCode b self.now }
        requires within { ending < length self.now.endings }
        ensures { (b : Block) → IsPartOfCode b self.now
            → IfOk result (λ bytes. bytes ≡ codeword (decisions b (self.now.planes - suc ending))) }
    {
        flushed(alloc, &self.bytes, &self.endings[ending])
    }

    // Makes the state that before the next bit-plane, and the coder that of those so far.
    fn resume(
        &self,
        block: &BlockPlanes<'_>,
        planes: usize,
        state: &mut PassState,
        coder: &mut Coder,
    ) -> Result<(), NoMemory>
        requires block { IsBlock block.now }
        requires of { IsPartOfCode (block_of block.now) self.now }
        requires planes { planes ≡ plane_count (block_of block.now) }
        requires further { length self.now.endings < planes }
        ensures state { IsBefore (block_of block.now) (planes - suc (length self.now.endings)) state.new }
        ensures coded { OnOk result
            (HasCoded (block_of block.now) planes (length self.now.endings) self.now.endings coder.new) }
    {
        lower_plane_laws();
        begin(block, planes - 1 - self.endings.len(), state);
        match self.endings.last() {
            None => {
                coder.start_again();
                Ok(())
            }
            Some(ending) => coder.go_on(&self.bytes, ending, &self.states),
        }
    }

    // Keeps what has come out of the coder, and its states. After `NoMemory` nothing is changed.
    fn keep(&mut self, coder: &Coder) -> Result<(), NoMemory>
        ensures ok { OnOk result (self.new
            ≡ record self.old { bytes = reverse coder.now.registers.bytes; states = coder.now.states }) }
        ensures err { OnErr result (self.new ≡ self.old) }
    {
        refill(&mut self.bytes, coder.bytes())?;
        self.states = coder.states();
        Ok(())
    }

    // Codes bit-planes until the `wanted` highest are coded. After `NoMemory` there may be endings behind the earlier
    // ones.
    fn go_down(
        &mut self,
        block: &BlockPlanes<'_>,
        wanted: usize,
        state: &mut PassState,
        coder: &mut Coder,
    ) -> Result<(), NoMemory>
        requires block { IsBlock block.now }
        requires of { IsPartOfCode (block_of block.now) self.old }
        requires further { length self.old.endings < wanted }
        requires wanted { wanted ≤ self.old.planes }
        ensures of { OnOk result (IsPartOfCode (block_of block.now) self.new) }
        ensures wanted { OnOk result (length self.new.endings ≡ wanted) }
        ensures err { OnErr result
            (record self.new { endings = take (length self.old.endings) self.new.endings } ≡ self.old) }
    {
        lower_plane_laws();
        ending_laws();
        let planes = block.planes.len();
        self.resume(block, planes, state, coder)?;
        code_planes(block, planes, wanted, &mut self.endings, state, coder)?;
        self.keep(coder)
    }

    /// Codes further bit-planes down to the plane `lowest`, where 0 is the block's lowest one; none where that one is
    /// coded already. After `NoMemory` the block is as it was. `state` and `coder` are room that is lent for the call.
    pub fn code_down_to(
        &mut self,
        block: &BlockPlanes<'_>,
        lowest: u32,
        state: &mut PassState,
        coder: &mut Coder,
    ) -> Result<(), NoMemory>
        requires block { IsBlock block.now }
        requires of { IsPartOfCode (block_of block.now) self.old }
        ensures of { OnOk result (IsPartOfCode (block_of block.now) self.new) }
        ensures planes { OnOk result (length self.new.endings
            ≡ max (length self.old.endings) (plane_count (block_of block.now) - lowest)) }
        ensures there { plane_count (block_of block.now) - lowest ≤ length self.old.endings
            → IsOk result × (self.new ≡ self.old) }
        ensures err { OnErr result (self.new ≡ self.old) }
    {
        let done = self.endings.len();
        let wanted = usize::from(self.planes).saturating_sub(lowest as usize);
        if wanted <= done {
            return Ok(());
        }
        match self.go_down(block, wanted, state, coder) {
            Ok(()) => Ok(()),
            Err(NoMemory) => {
                self.endings.truncate(done);
                Err(NoMemory)
            }
        }
    }

    /// The code of a block, all planes of which are coded, without taking memory.
    pub fn into_coded(self) -> Coded
        requires { length self.endings ≡ self.planes }
        ensures { (b : Block) → IsPartOfCode b self → IsCodeOf b result }
    {
        let PartlyCoded {
            planes,
            endings,
            bytes,
            states: _,
        } = self;
        Coded {
            planes,
            endings: List::from(endings),
            bytes: List::from(bytes),
        }
    }
}
