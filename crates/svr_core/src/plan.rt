ghost use Rattle.std.specs.Prelude.{◌≡◌};
ghost use Rattle.svr_core.specs.Edits.{counted};
ghost use Rattle.svr_core.specs.Run.{next_step};

use crate::merges::SLICE_TERMS;
use crate::queries::Query;
use svr_edge::Items;
use svr_record::TermPages;
use svr_request::Reply;
use svr_rows::{Change, Row};
use svr_schema::Schema;

/// What a request that isn't refused comes to. Making a plan changes nothing.
#[derive(Drop)]
pub enum Plan {
    /// A search that is to be made.
    Search(Query),
    /// A change of what is served, and its record.
    Change(Entry),
    /// A step of a merge, which is to be planned by itself.
    Merge(Step),
    /// A whole merge: its steps, one after the other.
    WholeMerge,
}

/// A step of a merge.
#[derive(Clone, Copy, Debug, PartialEq, Eq)]
pub enum Step {
    Begin,
    /// The next terms, so many at most.
    Slice(u32),
    Publish,
}

impl Step {
    /// The step of a whole merge behind this one, which was replied to so and has appended a record or not. None comes behind a refusal
    /// or a fault.
    pub fn next(self, appended: bool, reply: &Reply) -> Option<Step>
        ensures { result ≡ next_step self appended reply.now }
    {
        let Reply::Left(_) = reply else {
            return None;
        };
        match self {
            Step::Begin => Some(Step::Slice(SLICE_TERMS)),
            Step::Slice(_) if appended => Some(Step::Slice(SLICE_TERMS)),
            Step::Slice(_) => Some(Step::Publish),
            Step::Publish => None,
        }
    }
}

/// A change that may be made, and the body of the record that a journal keeps of it.
#[derive(Drop)]
pub struct Entry {
    pub edit: Edit,
    pub body: Items<u8>,
}

/// A change of what is served.
#[derive(Drop)]
pub enum Edit {
    /// Sets the schema.
    Schema(Schema),
    /// Changes one row.
    Change(Change),
    /// Adds rows to a table, one after the other.
    Load {
        table: u8,
        rows: Items<Row>,
    },
    /// Begins a merge.
    Begin,
    /// Takes terms into the merge, with the pages that stand one behind the other in the bytes, the first of them at an address.
    Slice {
        terms: Items<TermPages>,
        pages: Items<u8>,
        at: u64,
    },
    /// Publishes the merge.
    Publish,
}

impl Edit {
    /// How many changes it counts as: the begin of a merge and its slices are none.
    pub fn counted(&self) -> u64
        ensures { result ≡ counted self.now }
    {
        match self {
            Edit::Begin | Edit::Slice { .. } => 0,
            Edit::Schema(_) | Edit::Change(_) | Edit::Load { .. } | Edit::Publish => 1,
        }
    }
}
