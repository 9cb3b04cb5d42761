ghost use Rattle.std.specs.Prelude.{◌≡◌};
ghost use Rattle.track_terms.specs.Values as spec;

/// What the value of a set's item is. A number has its highest byte first.
#[derive(Clone, Copy, Debug)]
pub enum Value {
    U8(u8),
    U16(u16),
    U32(u32),
    U64(u64),
    /// A numerator and a denominator, in four bytes each.
    Rational(u32, u32),
    /// What the facts of the track say.
    Fact(Fact),
    /// A word in UTF-16.
    Text(Word),
    /// The identifier that is made of a word.
    Id(Word),
    /// The identifier of the set of this number.
    Reference(u8),
    /// A batch of one of these.
    OneReference(u8),
    TwoReferences(u8, u8),
    /// A label, in groups of four bytes.
    Label([u32; 4]),
    /// The label of the essence container.
    Container,
    /// A batch of that label alone.
    OneContainer,
    /// A batch of no labels.
    NoLabels,
    /// The label of the data definition.
    DataDefinition,
    /// The last four bytes of the items' key.
    TrackNumber,
    /// The identifier of the material package.
    MaterialPackage,
    /// The identifier of the source package, the file itself.
    SourcePackage,
    /// In the place of a package's identifier: there is none.
    NoPackage,
}

/// What the facts of a track say of it.
#[derive(Clone, Copy, Debug, PartialEq, Eq)]
pub enum Fact {
    /// Frames a second, as a rational number.
    Rate,
    /// The date and time of issue: the year in two bytes, month, day, hour, minute, second and a 0.
    Issued,
    /// How many frames, in eight bytes.
    Frames,
    /// In four bytes, as the height and the number of channels.
    Width,
    Height,
    /// The width and the height.
    AspectRatio,
    Channels,
    /// The bytes of one sample of all channels, in two bytes.
    SampleBytes,
    /// The bytes of a second of sound, in four bytes.
    SecondBytes,
}

/// A word that stands in a file's sets, or that an identifier is made of.
#[derive(Clone, Copy, Debug, PartialEq, Eq)]
pub enum Word {
    Material,
    Generation,
    Product,
    /// The name of what makes the file.
    Maker,
    MakerVersion,
}

impl Word {
    pub fn text(self) -> &'static [u8]
        ensures { result.now ≡ spec.text_of self }
    {
        match self {
            Word::Material => b"material",
            Word::Generation => b"generation",
            Word::Product => b"product",
            Word::Maker => b"dcp",
            Word::MakerVersion => b"1",
        }
    }
}
