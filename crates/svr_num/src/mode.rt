/// How many of a query's terms a text has to have.
#[derive(Clone, Copy, Debug, PartialEq, Eq)]
pub enum Mode {
    All,
    /// At least one.
    Any,
}
