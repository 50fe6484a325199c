//! The program: lines of requests in, lines of replies out.
#![tactic(auto)]

mod ending;
mod output;
mod serve;
mod session;
mod turn;

pub use serve::svr;
pub use session::INPUT_BYTES;
