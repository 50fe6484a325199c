use svr_edge::{Items, Text};
use svr_rows::Change;

/// One accepted change of the state, as a journal keeps it.
#[derive(Drop)]
pub enum Record {
    /// A schema's text, 1 to 1,048,576 bytes. What they say is for the state to ask.
    Schema(Items<u8>),
    /// A change of one row.
    Change(Change),
    /// A block of rows as text for the table at a place in the schema, at most 8,388,608 bytes.
    Load {
        table: u8,
        /// Whether the block's first line is a header.
        header: bool,
        block: Items<u8>,
    },
    /// A merge begins.
    Begin,
    /// A part of a merge: 1 to 1,000 terms, and behind them the pages of all of them in their order.
    Slice {
        terms: Items<TermPages>,
        pages: Items<u8>,
    },
    /// A merge ends.
    Publish,
}

/// A term, 1 to 255 bytes, and how many pages it gets.
#[derive(Drop)]
pub struct TermPages {
    pub term: Text,
    pub pages: u32,
}
