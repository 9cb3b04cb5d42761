ghost use Rattle.std.specs.Prelude.{◌≡◌, ◌^◌, ◌<◌, All, IfOk, unsigned_abs};
ghost use Rattle.quantiser.specs.Signed.{signed_value, signed_values};

use mast_base::NoMemory;
use std::alloc::Global;

// The word of a value: its magnitude, and above it its sign.
fn word_of(value: i32) -> u16
    requires { unsigned_abs value < 2 ^ 15 }
    ensures { signed_value result ≡ value }
{
    let sign = if value < 0 { 0x8000 } else { 0 };
    (sign + value.unsigned_abs()) as u16
}

/// The words of values whose magnitudes have 15 bits.
pub(crate) fn words_of(alloc: Global, values: &[i32]) -> Result<Vec<u16>, NoMemory>
    requires { All (λ v. unsigned_abs v < 2 ^ 15) values.now }
    ensures { IfOk result (λ words. signed_values words.items ≡ values.now) }
{
    let mut words = Vec::new(alloc);
    words.reserve(values.len())?;
    for value in values {
        words.push(word_of(*value))?;
    }
    Ok(words)
}
