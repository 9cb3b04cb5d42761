/// What a text has to be.
#[derive(Clone, Copy, Debug, PartialEq, Eq)]
pub enum TextRule {
    /// 1 to 100 printable ASCII characters.
    Title,
    /// The kind of content.
    ContentKind,
    /// A date and time, as `2024-05-01T12:00:00`.
    Issued,
    /// A hyphenated UUID in lower case.
    Namespace,
    /// 1 to 40 letters, digits, `.`, `_` and `-`.
    Id,
    /// The kind of an asset.
    AssetKind,
    /// 1 to 200 letters, digits, `.`, `_`, `-` and `/`: a path from the current folder, without `..`.
    File,
    /// No rule: the text is looked up elsewhere.
    AnyText,
}
