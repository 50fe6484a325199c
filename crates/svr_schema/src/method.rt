/// How documents are listed.
#[derive(Clone, Copy, Debug, PartialEq, Eq)]
pub enum MethodSpec {
    /// In one group.
    Id,
    /// By score.
    Score,
    /// By a score that may be stale by a factor of up to `num` over `den`: 1 ≤ `den` ≤ `num` ≤ 1,000,000.
    Threshold {
        num: u64,
        den: u64,
    },
    /// In groups of scores.
    Chunk {
        /// A group's lowest score is at least so many percent of that of the group below: from 100 to 100,000.
        ratio: u64,
        /// The least number of documents in a group below the highest: from 1 to 1,000,000.
        min_docs: u64,
    },
}
