ghost use Rattle.std.specs.Prelude.{◌≡◌};
ghost use Rattle.klv_base.specs.Reading.{read_at};

use crate::item::{HEAD, Key, THREE_BYTES};

/// Why no item can be read at a place.
#[derive(Clone, Copy, Debug, PartialEq, Eq)]
pub enum KlvRefusal {
    /// The bytes end before the value begins; `at` is their number.
    Truncated { at: usize },
    /// The length's first byte, at this place, is not 0x83.
    LengthForm { at: usize },
}

/// The key and the length of the item that begins at a place, and the place of its value. The value
/// itself needn't be there. Any bytes and any place will do.
pub fn read_key_length(bytes: &[u8], at: usize) -> Result<(Key, u32, usize), KlvRefusal>
    ensures { result ≡ read_at bytes.now at }
{
    let truncated = KlvRefusal::Truncated { at: bytes.len() };
    let rest = bytes.get(at..).ok_or(truncated)?;
    let (key, behind) = rest.split_first_chunk::<16>().ok_or(truncated)?;
    match behind {
        [] => Err(truncated),
        [form, ..] if *form != THREE_BYTES => Err(KlvRefusal::LengthForm { at: at + 16 }),
        [_, high, middle, low, ..] => {
            let length = u32::from_be_bytes([0, *high, *middle, *low]);
            Ok((*key, length, at + HEAD))
        }
        _ => Err(truncated),
    }
}
