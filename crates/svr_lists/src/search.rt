ghost use Rattle.std.specs.Prelude.{◌≡◌, ◌<◌, ◌≤◌, IfOk, length};
ghost use Rattle.std.specs.Option.{ForSome};
ghost use Rattle.svr_index.specs.Asked.{AsksFor};
ghost use Rattle.svr_index.specs.Search.{AnswersBy, FindsBest};
ghost use Rattle.svr_iter.specs.Reader.{KeepsReader};
ghost use Rattle.svr_lists.specs.Lists.{IsAtScores};

use crate::lists::Lists;
use std::alloc::Global;
use svr_iter::ScanFault;
use svr_num::{Mode, Scores};
use svr_postpage::PageReader;
use svr_tokens::Tokens;
use svr_topk::Answer;

impl Lists {
    /// Finds the best `k` documents that have all, or any, of the terms, in as few groups of the listing as suffice. It answers by the
    /// bytes of the pages that the reader gives. Documents are to be listed by these scores.
    ///
    /// Errors: `Page`, where a page could not be read, or stands there no more; `Memory`.
    pub fn search<S: Scores, R: PageReader>(
        &self,
        alloc: Global,
        terms: &Tokens,
        mode: Mode,
        k: u32,
        scores: &S,
        reader: &mut R,
    ) -> Result<Answer, ScanFault>
        requires some_terms { 0 < length terms.now }
        requires some { 0 < k }
        requires few { k ≤ 1000 }
        requires ready { R.ready reader.old }
        requires at_scores { IsAtScores (S.score_of scores.now) self.now }
        ensures answer { IfOk result (λ answer. ForSome (R.told reader.old) (λ bytes.
            AnswersBy self.now.index terms.now mode k (S.score_of scores.now) bytes answer.hits answer.groups)) }
        ensures best { IfOk result (λ answer. ForSome (R.told reader.old) (λ bytes.
            FindsBest self.now.index terms.now mode k (S.score_of scores.now) bytes answer.hits)) }
        ensures short { IfOk result (λ answer. length answer.hits ≤ k) }
        ensures asks { AsksFor (R.told reader.old) R.gives R.fails self.now.index terms.now mode k (S.score_of scores.now)
            reader.old reader.new result }
        ensures reader { KeepsReader R.told R.ready R.faults reader.old reader.new result }
    {
        self.index.search(alloc, terms, mode, k, scores, reader)
    }
}
