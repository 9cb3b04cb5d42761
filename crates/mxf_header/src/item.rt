ghost use Rattle.std.specs.Prelude.{◌≡◌, ◌<◌, ◌^◌, ◌++◌, length, OnOk};
ghost use Rattle.klv_base.specs.Items.{item};

use klv_base::{Key, key_length};
use std::alloc::AllocError;

/// Puts an item behind the bytes.
pub fn put_item(out: &mut Vec<u8>, key: Key, value: &[u8]) -> Result<(), AllocError>
    requires { length value.now < 2 ^ 24 }
    ensures { OnOk result (out.new.items ≡ out.old.items ++ item key value.now) }
{
    out.extend_from_slice(&key_length(key, value.len() as u32))?;
    out.extend_from_slice(value)
}
