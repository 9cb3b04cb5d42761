ghost use Rattle.std.specs.Prelude.{◌≡◌};

use crate::beginning::begin;
use crate::encoded::Encoded;
use cinema_stream::stream_at;
use codec_laws::last_cut_laws;
use codec_terms::{Params, Task};
use cut_forecast::Forecast;
use least_cut::find_least_cut;
use mast_base::NoMemory;
use picture_bands::PictureBands;
use picture_blocks::{Blocks, CodingRoom};
use picture_sets::PictureSets;
use std::alloc::Global;
use stream_laws::encoding_read_laws;

/// An encoder, which keeps its memory from picture to picture: about 75 MB at 2048 × 1080.
#[derive(Debug, Drop)]
pub struct Encoder {
    power: u8,
    forecast: Forecast,
    bands: PictureBands,
    sets: PictureSets,
    blocks: Blocks,
    room: CodingRoom,
    ghost power_is: { bands.power ≡ power },
    ghost sets_shape: { sets.shape ≡ bands.shape },
    ghost blocks_shape: { blocks.shape ≡ bands.shape },
}

impl Encoder {
    ghost use Rattle.std.specs.Prelude.{◌≤◌, ◌↔◌, IsTrue, IfOk, OnOk, Ok, Some};
    ghost use Rattle.codec_terms.specs.Codestream.{part_lengths};
    ghost use Rattle.codec_terms.specs.Cut.{IsWithin};
    ghost use Rattle.codec_terms.specs.Encode.{encoding, kept_coefficients, shape_of, task_coefficients, task_cut};
    ghost use Rattle.codec_terms.specs.StreamReading.{stream_read};
    ghost use Rattle.stream_laws.specs.Counts.{all_kept_blocks};
    ghost use Rattle.block_packets.specs.Coded.{AreCodedBlocks};
    ghost use Rattle.picture_encoder.specs.Rooms.{HasRoomFor};

    /// An encoder with memory for such pictures.
    pub fn new(alloc: Global, params: Params) -> Result<Self, NoMemory>
        ensures { IfOk result (λ encoder. HasRoomFor params encoder) }
    {
        let shape = params.shape();
        let bands = PictureBands::new(alloc, shape, params.power)?;
        let sets = PictureSets::new(alloc, shape)?;
        let blocks = Blocks::new(alloc, shape)?;
        Ok(Encoder {
            power: params.power,
            forecast: Forecast::new(),
            bands,
            sets,
            blocks,
            room: CodingRoom::new(alloc),
        })
    }

    // Whether its memory is for such pictures.
    fn has_room_for(&self, params: Params) -> bool
        ensures { IsTrue result ↔ HasRoomFor params self.now }
    {
        self.bands.shape() == params.shape() && self.power == params.power
    }

    // Takes memory anew where it isn't for such pictures.
    fn make_room(&mut self, alloc: Global, params: Params) -> Result<(), NoMemory>
        ensures { OnOk result (HasRoomFor params self.new) }
    {
        if !self.has_room_for(params) {
            *self = Encoder::new(alloc, params)?;
        }
        Ok(())
    }

    // Codes the code-blocks of a picture as far down as the least cut within its limits keeps them.
    fn code(&mut self, task: &Task) -> Result<u32, NoMemory>
        requires { HasRoomFor task.now.params self.old }
        ensures shape { self.new.blocks.shape ≡ shape_of task.now.params }
        ensures few { IfOk result (λ cut. cut ≤ 720) }
        ensures cut { IfOk result (λ cut. cut ≡ task_cut task.now) }
        ensures coded { IfOk result (λ cut. AreCodedBlocks (task_coefficients task.now) cut self.new.blocks) }
    {
        begin(
            &mut self.bands,
            &mut self.sets,
            &mut self.blocks,
            task.raw.as_slice(),
        );
        let limits = task.params.limits;
        let start = self.forecast.first_cut(&self.sets, limits);
        let cut = find_least_cut(&mut self.blocks, &self.sets, limits, start, &mut self.room)?;
        Ok(cut)
    }

    /// Encodes a picture, at the least cut within its limits. Where it isn't of the size and colour power of the one
    /// before, memory is taken anew. After `NoMemory` another picture may be encoded, or the same one again.
    pub fn encode<'a>(&mut self, alloc: Global, task: &'a Task) -> Result<Encoded<'a>, NoMemory>
        ensures task { IfOk result (λ encoded. encoded.task.now ≡ task.now) }
        ensures bytes { IfOk result (λ encoded. encoded.bytes ≡ encoding task.now) }
        ensures cut { IfOk result (λ encoded. encoded.cut ≡ task_cut task.now) }
        ensures within { IfOk result (λ encoded. IsWithin task.now.params.limits (shape_of task.now.params)
            (task_coefficients task.now) encoded.cut) }
        // A reader gets from it all that the cut keeps.
        ensures read_back { IfOk result (λ encoded. stream_read encoded.bytes
            ≡ Ok (record {
              shape = shape_of task.now.params;
              values = kept_coefficients (shape_of task.now.params) (task_cut task.now) (task_coefficients task.now);
              cut = Some (task_cut task.now);
              parts = part_lengths (shape_of task.now.params) (task_coefficients task.now) (task_cut task.now);
              blocks = all_kept_blocks (shape_of task.now.params) (task_coefficients task.now) (task_cut task.now);
            })) }
    {
        encoding_read_laws();
        last_cut_laws();
        self.make_room(alloc, task.params)?;
        let cut = self.code(task)?;
        let bytes = stream_at(alloc, &self.blocks, cut)?;
        Ok(Encoded { task, bytes, cut })
    }
}
