/// How one number is made of the values of several rows.
#[derive(Clone, Copy, Debug, PartialEq, Eq)]
pub enum Aggregate {
    /// Their sum.
    Sum,
    /// How many they are.
    Count,
    /// The least of them.
    Min,
    /// The greatest of them.
    Max,
    /// Their sum over their number, rounded down.
    Avg,
}
