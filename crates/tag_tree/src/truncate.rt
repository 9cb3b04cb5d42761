ghost use Rattle.std.specs.Prelude.{◌≡◌, take};

use mast_base::List;

/// Takes all but the first so many items off.
pub(crate) fn truncate(list: &mut List<bool>, len: usize)
    ensures { list.new ≡ take len list.old }
{
    while len < list.len() {
        let _last = list.pop();
    }
}
