ghost use Rattle.std.specs.Prelude.{◌≡◌, ◌≤◌, ◌^◌, IfOk};
ghost use Rattle.xyz_convert.specs.Entries.{light_of, least_above, entry_code, code_entries, list_of, IsTable};

use crate::entries::{code_of, entry_start, least_above, light_of};
use mast_base::NoMemory;
use std::alloc::{AllocError, Global};
use std::marker::Model;

/// The number of 16-bit samples.
const SAMPLES: u32 = 0x1_0000;

/// The number of code values.
const CODES: u32 = 4096;

/// The number of entries of the table of code values.
const ENTRIES: u32 = 0x1_0000 + 71_357 + 1;

/// What the conversion at one power is looked up in. Contracts see the power, which is five times the
/// exponent that makes samples linear.
#[derive(Debug, Drop)]
pub struct Tables {
    power: u8,
    pub(crate) light: Vec<u32>,
    pub(crate) above: Vec<u32>,
    pub(crate) code: Vec<u16>,
}

impl Model for Tables {
    ghost use Rattle.std.specs.Prelude.{ℕ};

    ghost Value = { ℕ };

    ghost use Rattle.xyz_convert.specs.Sound.{IsSound};

    ghost view = { λ tables. tables.power };

    ghost invariant = { IsSound };
}

#[tactic(auto, unfolding(crate::specs::Entries::list_of))]
fn light_table(alloc: Global, power: u8, samples: u32) -> Result<Vec<u32>, AllocError>
    requires least_power { 11 ≤ power }
    requires greatest_power { power ≤ 13 }
    requires samples { samples ≤ 2 ^ 16 }
    ensures { IfOk result (λ light. light.items ≡ list_of (light_of power) samples) }
{
    (0..samples)
        .map(|sample| light_of(power, sample))
        .collect(alloc)
}

#[tactic(auto, unfolding(crate::specs::Entries::list_of))]
fn threshold_table(alloc: Global, codes: u32) -> Result<Vec<u32>, AllocError>
    requires { codes ≤ 4096 }
    ensures { IfOk result (λ above. above.items ≡ list_of least_above codes) }
{
    (0..codes).map(least_above).collect(alloc)
}

#[tactic(auto, unfolding(crate::specs::Entries::list_of))]
fn code_table(alloc: Global, above: &[u32], entries: u32) -> Result<Vec<u16>, AllocError>
    requires thresholds { IsTable least_above 4096 above.now }
    requires entries { entries ≤ code_entries }
    ensures { IfOk result (λ code. code.items ≡ list_of entry_code entries) }
{
    (0..entries)
        .map(|at| code_of(above, entry_start(at)))
        .collect(alloc)
}

impl Tables {
    ghost use Rattle.std.specs.Prelude.{◌≡◌, ◌≤◌, IfOk};

    /// The tables of a power, of about 550 kB.
    pub fn new(alloc: Global, power: u8) -> Result<Self, NoMemory>
        requires least_power { 11 ≤ power }
        requires greatest_power { power ≤ 13 }
        ensures { IfOk result (λ tables. tables ≡ power) }
    {
        let light = light_table(alloc, power, SAMPLES)?;
        let above = threshold_table(alloc, CODES)?;
        let code = code_table(alloc, &above, ENTRIES)?;
        Ok(Tables {
            power,
            light,
            above,
            code,
        })
    }
}
