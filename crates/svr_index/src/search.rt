ghost use Rattle.std.specs.Prelude.{◌≡◌, ◌<◌, ◌≤◌, ◌++◌, ℕ, List, IfOk, OnOk, length, slice_range};
ghost use Rattle.std.specs.Option.{ForSome};
ghost use Rattle.svr_iter.specs.Reader.{KeepsReader};
ghost use Rattle.svr_num.specs.declared.mode.Mode.TheVariants as mode;
ghost use Rattle.svr_index.specs.Asked.{AsksFor};
ghost use Rattle.svr_index.specs.Search.{AnswersBy, AreWithinBounds, FindsBest};
ghost use Rattle.svr_index.specs.Layout.{AnswersByHeads, AreListsOf, IsListOf};

use crate::index::Index;
use std::alloc::Global;
use svr_edge::{Memory, Text};
use svr_iter::{Live, ScanFault};
use svr_listkey::ListKeys;
use svr_long::LongCursor;
use svr_match::{AllOf, AnyOf};
use svr_num::{Mode, Scores};
use svr_postpage::PageReader;
use svr_short::ShortLists;
use svr_tokens::Tokens;
use svr_topk::{Answer, scan};

impl Index {
    /// The documents of one term, key by key.
    pub(crate) fn list_of<'a>(
        &'a self,
        alloc: Global,
        term: &'a Text,
    ) -> Live<'a, LongCursor<'a>, ShortLists, ListKeys>
        ensures { IsListOf self.now term.now result }
    {
        let long = LongCursor::new(self.long.pages(term));
        Live::new(alloc, term, long, &self.short, &self.keys)
    }

    /// Puts a list for each of the terms from a place up to another behind others.
    fn push_lists<'a>(
        &'a self,
        alloc: Global,
        terms: &'a Tokens,
        from: usize,
        to: usize,
        lists: &mut Vec<Live<'a, LongCursor<'a>, ShortLists, ListKeys>>,
    ) -> Result<(), Memory>
        requires order { from ≤ to }
        requires within { to ≤ length terms.now }
        ensures { (before : List (List ℕ)) → AreListsOf self.now before lists.old.items
            → OnOk result (AreListsOf self.now (before ++ slice_range terms.now from to) lists.new.items) }
    {
        for i in from..to {
            lists.push(self.list_of(alloc, terms.get(i)))?;
        }
        Ok(())
    }

    /// The place of the term that has the fewest posted pages.
    fn rarest(&self, terms: &Tokens) -> usize
        requires some { 0 < length terms.now }
        ensures { result < length terms.now }
    {
        let mut rarest = 0;
        let mut fewest = usize::MAX;
        for i in 0..terms.len() {
            let pages = self.long.pages(terms.get(i)).len();
            if pages < fewest {
                rarest = i;
                fewest = pages;
            }
        }
        rarest
    }

    /// Searches for documents with all of the terms, of which the rarest goes first.
    fn search_all<S: Scores, R: PageReader>(
        &self,
        alloc: Global,
        terms: &Tokens,
        k: u32,
        scores: &S,
        reader: &mut R,
    ) -> Result<Answer, ScanFault>
        requires some_terms { 0 < length terms.now }
        requires some { 0 < k }
        requires few { k ≤ 1000 }
        requires ready { R.ready reader.old }
        requires bounded { AreWithinBounds self.now (S.score_of scores.now) }
        ensures answer { IfOk result (λ answer. ForSome (R.told reader.old) (λ bytes.
            AnswersByHeads self.now terms.now mode.All k (S.score_of scores.now) bytes answer.hits answer.groups)) }
        ensures short { IfOk result (λ answer. length answer.hits ≤ k) }
        ensures asks { AsksFor (R.told reader.old) R.gives R.fails self.now terms.now mode.All k (S.score_of scores.now)
            reader.old reader.new result }
        ensures reader { KeepsReader R.told R.ready R.faults reader.old reader.new result }
    {
        let rarest = self.rarest(terms);
        let end = terms.len();
        let mut others = Vec::new(alloc);
        self.push_lists(alloc, terms, 0, rarest, &mut others)?;
        self.push_lists(alloc, terms, rarest + 1, end, &mut others)?;
        let first = self.list_of(alloc, terms.get(rarest));
        let mut matches = AllOf::new(first, others);
        scan(alloc, k, &mut matches, reader, scores, &self.method)
    }

    /// Searches for documents with any of the terms.
    fn search_any<S: Scores, R: PageReader>(
        &self,
        alloc: Global,
        terms: &Tokens,
        k: u32,
        scores: &S,
        reader: &mut R,
    ) -> Result<Answer, ScanFault>
        requires some { 0 < k }
        requires few { k ≤ 1000 }
        requires ready { R.ready reader.old }
        requires bounded { AreWithinBounds self.now (S.score_of scores.now) }
        ensures answer { IfOk result (λ answer. ForSome (R.told reader.old) (λ bytes.
            AnswersByHeads self.now terms.now mode.Any k (S.score_of scores.now) bytes answer.hits answer.groups)) }
        ensures short { IfOk result (λ answer. length answer.hits ≤ k) }
        ensures asks { AsksFor (R.told reader.old) R.gives R.fails self.now terms.now mode.Any k (S.score_of scores.now)
            reader.old reader.new result }
        ensures reader { KeepsReader R.told R.ready R.faults reader.old reader.new result }
    {
        let mut lists = Vec::new(alloc);
        self.push_lists(alloc, terms, 0, terms.len(), &mut lists)?;
        let mut matches = AnyOf::new(alloc, lists);
        scan(alloc, k, &mut matches, reader, scores, &self.method)
    }

    /// Finds the best `k` documents that have all, or any, of the terms, in as few groups of the listing as suffice. It answers by the
    /// bytes of the pages that the reader gives.
    ///
    /// Errors: `Page`, where a page could not be read, or stands there no more; `Memory`.
    pub fn search<S: Scores, R: PageReader>(
        &self,
        alloc: Global,
        terms: &Tokens,
        mode: Mode,
        k: u32,
        scores: &S,
        reader: &mut R,
    ) -> Result<Answer, ScanFault>
        requires some_terms { 0 < length terms.now }
        requires some { 0 < k }
        requires few { k ≤ 1000 }
        requires ready { R.ready reader.old }
        requires bounded { AreWithinBounds self.now (S.score_of scores.now) }
        ensures answer { IfOk result (λ answer. ForSome (R.told reader.old) (λ bytes.
            AnswersBy self.now terms.now mode k (S.score_of scores.now) bytes answer.hits answer.groups)) }
        ensures best { IfOk result (λ answer. ForSome (R.told reader.old) (λ bytes.
            FindsBest self.now terms.now mode k (S.score_of scores.now) bytes answer.hits)) }
        ensures short { IfOk result (λ answer. length answer.hits ≤ k) }
        ensures asks { AsksFor (R.told reader.old) R.gives R.fails self.now terms.now mode k (S.score_of scores.now)
            reader.old reader.new result }
        ensures reader { KeepsReader R.told R.ready R.faults reader.old reader.new result }
    {
        match mode {
            Mode::All => self.search_all(alloc, terms, k, scores, reader),
            Mode::Any => self.search_any(alloc, terms, k, scores, reader),
        }
    }
}
