/// An object of the project file. An item is counted from 0.
#[derive(Clone, Copy, Debug)]
pub enum Place {
    Project,
    Asset(usize),
    Picture(usize),
    Sound(usize),
}
