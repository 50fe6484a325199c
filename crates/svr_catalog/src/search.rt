ghost use Rattle.std.specs.Prelude.{◌<◌, ◌≤◌, IfOk, length};
ghost use Rattle.std.specs.Option.{ForSome};
ghost use Rattle.svr_index.specs.Asked.{AsksFor};
ghost use Rattle.svr_iter.specs.Reader.{KeepsReader};
ghost use Rattle.svr_listing.specs.Listing.{score_in};
ghost use Rattle.svr_catalog.specs.Answers.{AnswersByBytes, AnswersExactly};
ghost use Rattle.svr_catalog.specs.Catalog.{documents_in};

use crate::catalog::Catalog;
use std::alloc::Global;
use svr_iter::ScanFault;
use svr_num::Mode;
use svr_postpage::PageReader;
use svr_tokens::Tokens;
use svr_topk::Answer;

impl Catalog {
    /// Finds the best `k` documents that have all, or any, of the terms, by the bytes of the pages that the reader gives.
    ///
    /// Errors: `Page`, where a page could not be read, or stands there no more; `Memory`.
    pub fn search<R: PageReader>(
        &self,
        alloc: Global,
        terms: &Tokens,
        mode: Mode,
        k: u32,
        reader: &mut R,
    ) -> Result<Answer, ScanFault>
        requires some_terms { 0 < length terms.now }
        requires some { 0 < k }
        requires few { k ≤ 1000 }
        requires ready { R.ready reader.old }
        ensures answer { IfOk result (λ answer. ForSome (R.told reader.old) (λ bytes.
            AnswersByBytes self.now terms.now mode k bytes answer)) }
        ensures exact { IfOk result (λ answer. ForSome (R.told reader.old) (λ bytes.
            AnswersExactly self.now terms.now mode k bytes answer)) }
        ensures short { IfOk result (λ answer. length answer.hits ≤ 1000) }
        ensures asks { AsksFor (R.told reader.old) R.gives R.fails self.now.lists.index terms.now mode k
            (score_in (documents_in self.now.catalog)) reader.old reader.new result }
        ensures reader { KeepsReader R.told R.ready R.faults reader.old reader.new result }
    {
        let contents = &self.contents;
        contents
            .lists
            .search(alloc, terms, mode, k, &contents.scores, reader)
    }
}
