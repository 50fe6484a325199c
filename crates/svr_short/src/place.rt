/// Where a mark stands: under the term with this number, at a key, for a document.
#[derive(Clone, Copy, Debug, PartialEq, Eq, PartialOrd, Ord)]
pub struct Place {
    pub term: u64,
    pub key: u64,
    pub id: u64,
}

/// That a document has a mark under the term with this number.
#[derive(Clone, Copy, Debug, PartialEq, Eq, PartialOrd, Ord)]
pub struct Holding {
    pub id: u64,
    pub term: u64,
}
