/// Where a document is listed.
#[derive(Clone, Copy, Debug, PartialEq, Eq)]
pub struct ListKey {
    /// At most 2^48 - 1.
    pub key: u64,
    /// Whether the document has moved since lists were last merged.
    pub moved: bool,
}
