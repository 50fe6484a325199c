//! What a line asks for, and the text of what is answered.
#![tactic(auto)]

mod buffer;
mod members;
mod print;
mod read;
mod refusal;
mod reply;
mod request;

pub use buffer::ReplyBuf;
pub use print::print_reply;
pub use read::read_request;
pub use refusal::Refusal;
pub use reply::{Fault, Reply};
pub use request::{Asked, HITS_BY_DEFAULT, Request, SchemaValue};
pub use svr_topk::Answer;
