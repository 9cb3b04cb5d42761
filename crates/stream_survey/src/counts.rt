/// How many blocks packets include up to a place.
#[derive(Clone, Copy, Debug, PartialEq, Eq)]
pub(crate) struct Counted {
    pub blocks: u32,
    pub next: usize,
}
