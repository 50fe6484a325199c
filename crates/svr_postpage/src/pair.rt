ghost use Rattle.std.specs.Prelude.{◌≡◌};
ghost use Rattle.svr_postpage.specs.Pairs.{is_before, is_in_range};

/// A document at a key: what a list of postings is made of.
#[derive(Clone, Copy, Debug, PartialEq, Eq)]
pub struct Pair {
    /// Below 2^48.
    pub key: u64,
    /// The document's id, below 2^63.
    pub id: u64,
}

impl Pair {
    /// Whether this pair stands in front of the other in page order.
    pub fn is_before(&self, other: &Pair) -> bool
        ensures { result ≡ is_before self.now other.now }
    {
        self.key > other.key || (self.key == other.key && self.id < other.id)
    }

    /// Whether its key and its id are in their ranges.
    pub fn is_in_range(&self) -> bool
        ensures { result ≡ is_in_range self.now }
    {
        self.key < 1 << 48 && self.id < 1 << 63
    }
}
