ghost use Rattle.std.specs.Prelude.{◌<◌, ◌≤◌, ◌^◌, IfOk};
ghost use Rattle.std.specs.List.Sorted.{IsStrictlyIncreasing};

use crate::over_pages::asked::{comes_after, have_ids, have_scores, is_method};
use crate::over_pages::changes::{Change, install, make_change};
use crate::over_pages::plain::Plain;
use crate::over_pages::shelf::Shelf;
use crate::over_pages::stop::Stop;
use crate::search::Table;
use std::alloc::Global;
use svr_edge::{Items, Memory, Text};
use svr_index::Index;
use svr_listing::{Document, Listed};
use svr_listkey::ListKeys;
use svr_long::are_heads;
use svr_merge::{MergeRun, method_for};
use svr_method::Method;
use svr_num::{DocId, Hit, ListKey, Mode, SCORE_MAX, Score};
use svr_postpage::PageRef;
use svr_schema::MethodSpec;
use svr_tokens::{Tokens, tokens};
use svr_topk::Answer;

/// An index with its disk, a merge of it that may be begun, and the plain listing that both are compared with.
#[derive(Drop)]
pub struct Shop {
    spec: MethodSpec,
    pub index: Index,
    run: Option<MergeRun>,
    pub plain: Plain,
    pub shelf: Shelf,
    /// Whether the last search came to a damaged page.
    pub is_damaged: bool,
}

/// The terms as texts.
pub fn texts_of(alloc: Global, terms: &Tokens) -> Result<Vec<Text>, Memory> {
    let mut texts = Vec::new(alloc);
    for i in 0..terms.len() {
        texts.push(terms.get(i).copy(alloc)?)?;
    }
    Ok(texts)
}

fn document_of(
    alloc: Global,
    id: DocId,
    score: Score,
    text: &str,
    terms: &Tokens,
) -> Result<Document, Memory> {
    Ok(Document {
        id,
        score,
        text: Text::new(alloc, text)?,
        terms: Items::from_vec(texts_of(alloc, terms)?),
    })
}

/// The entry of a document by a merge.
fn entry_by(run: &MergeRun, id: DocId, score: Score) -> ListKey
    requires { score ≤ SCORE_MAX }
    ensures { result.key < 2 ^ 48 }
{
    match run.new_key(id) {
        Some(key) => ListKey { key, moved: false },
        None => ListKey {
            key: run.method().key(score),
            moved: true,
        },
    }
}

/// The entries of documents by a merge.
fn entries_by(alloc: Global, run: &MergeRun, documents: &[Listed]) -> Result<ListKeys, Memory> {
    let mut keys = ListKeys::new(alloc);
    for listed in documents {
        let score = listed.document.score.min(SCORE_MAX);
        let id = listed.document.id;
        keys.set(id, entry_by(run, id, score))?;
    }
    Ok(keys)
}

/// Gives a term its pages, if it may be the next one.
fn slice_term(
    alloc: Global,
    run: &mut MergeRun,
    term: Text,
    pages: Vec<PageRef>,
) -> Result<(), Stop> {
    if !comes_after(run.last(), &term) || !are_heads(&pages) {
        return Err(Stop::Barred);
    }
    run.sliced(alloc, term, pages)?;
    Ok(())
}

impl Shop {
    /// No documents, a disk of a few bytes, and room for so many cached pages.
    pub fn new(alloc: Global, spec: MethodSpec, cache: u32) -> Result<Shop, Stop> {
        if !is_method(&spec) {
            return Err(Stop::Barred);
        }
        let index = Index::new(alloc, method_for(&spec, &[]));
        Ok(Shop {
            spec,
            index,
            run: None,
            plain: Plain::new(alloc, &spec)?,
            shelf: Shelf::new(alloc, b"SVR", cache)?,
            is_damaged: false,
        })
    }

    /// The terms of a document, if it is there.
    fn terms_of(&self, alloc: Global, id: DocId) -> Result<Option<Tokens>, Memory> {
        match self.plain.document(id) {
            Some(listed) => Ok(Some(tokens(alloc, listed.document.text.as_str())?)),
            None => Ok(None),
        }
    }

    /// A document comes, or has another score or text.
    pub fn put(&mut self, alloc: Global, id: DocId, score: Score, text: &str) -> Result<(), Stop> {
        let terms = tokens(alloc, text)?;
        match self.terms_of(alloc, id)? {
            Some(old) => {
                make_change(alloc, &mut self.index, id, Change::Edited(&old, &terms))?;
                make_change(alloc, &mut self.index, id, Change::Scored(score, &terms))?;
            }
            None => make_change(alloc, &mut self.index, id, Change::Comes(score, &terms))?,
        }
        if !self.plain.is_same(id, score, text) {
            self.touch(alloc, id)?;
        }
        self.plain
            .put(alloc, document_of(alloc, id, score, text, &terms)?)?;
        Ok(())
    }

    /// A document goes.
    pub fn take_out(&mut self, alloc: Global, id: DocId) -> Result<(), Stop> {
        make_change(alloc, &mut self.index, id, Change::Goes)?;
        self.touch(alloc, id)?;
        self.plain.take_out(alloc, id)?;
        Ok(())
    }

    fn touch(&mut self, alloc: Global, id: DocId) -> Result<(), Memory> {
        if let Some(run) = &mut self.run {
            run.touch(id);
        }
        self.plain.touch(alloc, id)
    }

    /// The hits of all documents.
    fn hits(&self, alloc: Global) -> Result<Vec<Hit>, Memory> {
        let mut hits = Vec::new(alloc);
        for listed in self.plain.documents() {
            hits.push(Hit {
                id: listed.document.id,
                score: listed.document.score,
            })?;
        }
        Ok(hits)
    }

    /// Begins a merge.
    pub fn begin(&mut self, alloc: Global) -> Result<(), Stop> {
        let hits = self.hits(alloc)?;
        if !have_ids(&hits) || !have_scores(&hits) || !is_method(&self.spec) {
            return Err(Stop::Barred);
        }
        self.run = Some(MergeRun::begin(alloc, &hits, &self.spec)?);
        self.plain.begin(alloc, &self.spec)?;
        Ok(())
    }

    /// Whether a merge is begun.
    pub fn is_merging(&self) -> bool {
        self.run.is_some()
    }

    /// The next term behind another, if any; it is that of the plain listing.
    fn term_behind(&self, alloc: Global, after: Option<&Text>) -> Result<Option<Text>, Stop> {
        let plain = self.plain.next_term(alloc, after)?;
        let next = match self.index.next_term(after) {
            Some(term) => Some(term.copy(alloc)?),
            None => None,
        };
        if next != plain {
            return Err(Stop::Differs);
        }
        Ok(next)
    }

    /// The next term of a merge, if one is left.
    fn next_term(&self, alloc: Global) -> Result<Option<Text>, Stop> {
        match &self.run {
            Some(run) => self.term_behind(alloc, run.last()),
            None => Ok(None),
        }
    }

    /// Slices so many terms, or all that are left.
    pub fn slice(&mut self, alloc: Global, terms: u32) -> Result<(), Stop> {
        self.shelf.append(b"slice")?;
        for _ in 0..terms {
            match self.next_term(alloc)? {
                Some(term) => self.slice_one(alloc, term)?,
                None => return Ok(()),
            }
        }
        Ok(())
    }

    /// The documents under a term; they are those of the plain listing.
    fn docs(&mut self, alloc: Global, term: &Text) -> Result<Vec<DocId>, Stop>
        ensures { IfOk result (λ ids. IsStrictlyIncreasing ids.items) }
    {
        let ids = self.shelf.docs(alloc, &self.index, term)?;
        let plain = self.plain.listing.effective_ids(alloc, term)?;
        if ids.as_slice() != plain.as_slice() {
            return Err(Stop::Differs);
        }
        Ok(ids)
    }

    /// Slices a term.
    fn slice_one(&mut self, alloc: Global, term: Text) -> Result<(), Stop> {
        let ids = self.docs(alloc, &term)?;
        let from = self.shelf.bytes().len() as u64;
        let Some(run) = &mut self.run else {
            return Ok(());
        };
        self.shelf.append(&run.images(alloc, &ids)?)?;
        let pages = self.shelf.pages_from(alloc, from)?;
        self.plain.slice(alloc, &term, from)?;
        slice_term(alloc, run, term, pages)
    }

    /// How many terms are left to be sliced.
    pub fn left(&self, alloc: Global) -> Result<u64, Stop> {
        let mut left: u64 = 0;
        let mut after = None;
        if let Some(run) = &self.run
            && let Some(last) = run.last()
        {
            after = Some(last.copy(alloc)?);
        }
        for _ in 0..1000 {
            match self.term_behind(alloc, after.as_ref())? {
                Some(term) => after = Some(term),
                None => return Ok(left),
            }
            left = left.saturating_add(1);
        }
        Ok(left)
    }

    /// The documents under a term, as a text.
    pub fn under(&mut self, alloc: Global, term: &str) -> Result<String, Stop> {
        let term = Text::new(alloc, term)?;
        let ids = self.docs(alloc, &term)?;
        let mut text = String::new(alloc);
        for id in &ids {
            text.push_str(format!(in alloc; "{id},")?.as_str())?;
        }
        Ok(text)
    }

    /// Whether the index lists each document where the plain listing does, and of the first ids no other.
    pub fn has_entries(&self) -> bool {
        for listed in self.plain.documents() {
            if self.index.entry(listed.document.id) != Some(listed.entry) {
                return false;
            }
        }
        for id in 0..16 {
            if self.index.entry(id).is_some() != self.plain.document(id).is_some() {
                return false;
            }
        }
        true
    }

    /// Publishes a merge of which no term is left.
    pub fn publish(&mut self, alloc: Global) -> Result<(), Stop> {
        let Some(run) = self.run.take() else {
            return Ok(());
        };
        let keys = entries_by(alloc, &run, self.plain.documents())?;
        self.plain.publish(alloc)?;
        install(alloc, &mut self.index, run, keys, self.plain.documents())
    }

    /// A whole merge.
    pub fn merge(&mut self, alloc: Global) -> Result<(), Stop> {
        self.begin(alloc)?;
        self.slice(alloc, u32::MAX)?;
        self.publish(alloc)
    }

    /// Forgets a merge.
    pub fn forget(&mut self) {
        self.run = None;
        self.plain.forget();
    }

    /// The scores of all documents.
    pub fn scores(&self, alloc: Global) -> Result<Table, Memory> {
        Ok(Table {
            rows: self.hits(alloc)?,
        })
    }

    /// Searches.
    pub fn search(
        &mut self,
        alloc: Global,
        terms: &Tokens,
        mode: Mode,
        k: u32,
    ) -> Result<Answer, Stop> {
        let scores = self.scores(alloc)?;
        if terms.len() == 0 || k == 0 || k > 1000 {
            return Err(Stop::Barred);
        }
        let found = self
            .shelf
            .search(alloc, &self.index, &scores, terms, mode, k);
        self.is_damaged = found.is_err();
        match found? {
            Some(answer) => Ok(answer),
            None => Err(Stop::Barred),
        }
    }
}
