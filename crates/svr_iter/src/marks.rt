/// What a short list says of a document under a term.
#[derive(Clone, Copy, Debug, PartialEq, Eq)]
pub enum Mark {
    /// It stands there.
    Add,
    /// It stands there no more, though its pair is posted.
    Rem,
}

/// A document with its mark.
#[derive(Clone, Copy, Debug, PartialEq, Eq)]
pub struct Marked {
    pub id: u64,
    pub mark: Mark,
}
