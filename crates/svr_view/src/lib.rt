//! The scores of documents over the rows of all tables, kept as the rows change.
#![tactic(auto)]

mod counted;
mod score_move;
mod values;
mod view;

pub use score_move::ScoreMove;
pub use view::ScoreView;
