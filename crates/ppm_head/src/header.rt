/// A header is wrong at this byte, or the bytes end before it does, and `at` is their number.
#[derive(Clone, Copy, Debug, PartialEq, Eq)]
pub struct BadHeader {
    pub at: usize,
}
