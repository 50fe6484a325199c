use svr_num::{DocId, Score};

/// A document whose score is another after a change, or which is new, or gone.
#[derive(Clone, Copy, Debug, Drop)]
pub struct ScoreMove {
    pub id: DocId,
    /// The score before the change; `None` where there was no such document.
    pub old: Option<Score>,
    /// The score after it; `None` where there is none any more.
    pub new: Option<Score>,
}
