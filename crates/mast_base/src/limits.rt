/// The greatest number of bytes of a whole codestream, and of each component's part of it.
#[derive(Clone, Copy, Debug, PartialEq, Eq)]
pub struct Limits {
    pub frame: u32,
    pub component: u32,
}
