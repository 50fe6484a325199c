//! What gives groups of ids by descending keys: from memory, and for one term from its posted pairs and its marks.
#![tactic(auto)]

mod fault;
mod ids;
mod keys;
mod live;
mod live_ids;
mod marks;
mod mem_long;
mod mem_postings;
mod postings;
mod sources;

pub use fault::ScanFault;
pub use ids::{keep_common, merge_ids};
pub use keys::greater_key;
pub use live::Live;
pub use marks::{Mark, Marked};
pub use mem_long::MemLong;
pub use mem_postings::MemPostings;
pub use postings::Postings;
pub use sources::{KeySource, LongSource, ShortSource};
