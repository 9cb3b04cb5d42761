ghost use Rattle.std.specs.Prelude.{◌≡◌, ◌<◌, ◌^◌, ◌++◌, length, OnOk};
ghost use Rattle.klv_base.specs.Items.{set_item};

use std::alloc::AllocError;

/// Puts an item of a set behind the bytes.
pub(crate) fn put_set_item(out: &mut Vec<u8>, tag: u16, value: &[u8]) -> Result<(), AllocError>
    requires { length value.now < 2 ^ 16 }
    ensures { OnOk result (out.new.items ≡ out.old.items ++ set_item (record { tag = tag; value = value.now })) }
{
    out.extend_from_slice(&tag.to_be_bytes())?;
    out.extend_from_slice(&(value.len() as u16).to_be_bytes())?;
    out.extend_from_slice(value)?;
    Ok(())
}
