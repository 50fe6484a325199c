use crate::over_pages::asked::{comes_after, has_divisor};
use std::alloc::Global;
use std::mem;
use svr_edge::{Items, Memory, Text};
use svr_listing::{Document, Listed, ListingMethod, Page, PlainListing, TermPages};
use svr_num::{DocId, ListKey, SCORE_MAX, Score};
use svr_postpage::{PageRef, Pair};
use svr_schema::MethodSpec;

/// How many pairs a page has, unless it is the last one.
const PAGE_PAIRS: usize = 255;

/// How many bounds there are at most.
const MOST_BOUNDS: usize = 64;

/// A merge beside a plain listing: its method, the new keys of documents that were not touched, and the pages of sliced terms.
#[derive(Drop)]
pub struct PlainMerge {
    method: ListingMethod,
    keys: Vec<Pair>,
    lists: Vec<TermPages>,
}

/// Documents listed by the rules, in the plain slow way.
#[derive(Drop)]
pub struct Plain {
    pub listing: PlainListing,
    merge: Option<PlainMerge>,
}

/// How many of these scores are at least `from` and below `to`.
fn count_between(scores: &[Score], from: Score, to: Score) -> u64 {
    scores
        .iter()
        .filter(|score| from <= **score && **score < to)
        .count() as u64
}

/// The least score that may be the bound behind this one.
fn next_bound(scores: &[Score], bound: Score, ratio: u64, min_docs: u64) -> Option<Score> {
    let mut least: Option<Score> = None;
    for score in scores {
        let is_far = *score > bound
            && u128::from(*score) * 100 >= u128::from(bound.max(1)) * u128::from(ratio)
            && count_between(scores, bound, *score) >= min_docs;
        if is_far && least.is_none_or(|other| *score < other) {
            least = Some(*score);
        }
    }
    least
}

/// The bounds of chunks for these scores, in any order.
fn bounds_of(
    alloc: Global,
    scores: &[Score],
    ratio: u64,
    min_docs: u64,
) -> Result<Vec<Score>, Memory> {
    let mut bounds = Vec::new(alloc);
    let mut bound = 0;
    bounds.push(bound)?;
    for _ in 1..MOST_BOUNDS {
        let Some(next) = next_bound(scores, bound, ratio, min_docs) else {
            return Ok(bounds);
        };
        bound = next;
        bounds.push(bound)?;
    }
    Ok(bounds)
}

/// The method of a schema for documents with these scores.
fn method_of(alloc: Global, spec: &MethodSpec, scores: &[Score]) -> Result<ListingMethod, Memory> {
    match *spec {
        MethodSpec::Id => Ok(ListingMethod::Id),
        MethodSpec::Score => Ok(ListingMethod::Score),
        MethodSpec::Threshold { num, den } => Ok(ListingMethod::Threshold { num, den }),
        MethodSpec::Chunk { ratio, min_docs } => {
            let bounds = bounds_of(alloc, scores, ratio, min_docs)?;
            Ok(ListingMethod::Chunk(Items::from_vec(bounds)))
        }
    }
}

/// Whether a score stays at a key.
fn stays(method: &ListingMethod, score: Score, key: u64) -> bool {
    has_divisor(method) && key <= SCORE_MAX && method.stays(score, key)
}

/// The pairs of pages in page order, with so many in each but the last, from an address on.
fn pages_of(alloc: Global, pairs: &[Pair], from: u64) -> Result<Vec<Page>, Memory> {
    let mut pages = Vec::new(alloc);
    let mut at = from;
    for part in pairs.chunks(PAGE_PAIRS) {
        if let Some(first) = part.first() {
            let head = PageRef {
                at,
                key: first.key,
                id: first.id,
                count: part.len().min(PAGE_PAIRS) as u16,
            };
            let pairs = Items::from_vec(part.to_vec(alloc)?);
            pages.push(Page { head, pairs })?;
        }
        at = at.saturating_add(4096);
    }
    Ok(pages)
}

impl Plain {
    /// No documents.
    pub fn new(alloc: Global, spec: &MethodSpec) -> Result<Plain, Memory> {
        let listing = PlainListing {
            method: method_of(alloc, spec, &[])?,
            documents: Items::from_vec(Vec::new(alloc)),
            lists: Items::from_vec(Vec::new(alloc)),
        };
        Ok(Plain {
            listing,
            merge: None,
        })
    }

    /// The documents, in ascending order of id.
    pub fn documents(&self) -> &[Listed] {
        self.listing.documents.as_slice()
    }

    /// A document, if it is there.
    pub fn document(&self, id: DocId) -> Option<&Listed> {
        self.documents()
            .iter()
            .find(|listed| listed.document.id == id)
    }

    /// Whether a document is there with this score and text.
    pub fn is_same(&self, id: DocId, score: Score, text: &str) -> bool {
        match self.document(id) {
            Some(listed) => {
                listed.document.score == score && listed.document.text.as_str() == text
            }
            None => false,
        }
    }

    /// How many documents have a lower id.
    fn place_of(&self, id: DocId) -> usize {
        self.documents()
            .iter()
            .filter(|listed| listed.document.id < id)
            .count()
    }

    /// The documents, taken out.
    fn take_documents(&mut self, alloc: Global) -> Vec<Listed> {
        let none = Items::from_vec(Vec::new(alloc));
        mem::replace(&mut self.listing.documents, none).into_vec()
    }

    /// The entry of a document that has this score now.
    fn entry_now(&self, id: DocId, score: Score) -> ListKey {
        let method = &self.listing.method;
        match self.document(id) {
            Some(listed) if stays(method, score, listed.entry.key) => listed.entry,
            _ => ListKey {
                key: method.key(score),
                moved: true,
            },
        }
    }

    /// A document has no new key from now on.
    pub fn touch(&mut self, alloc: Global, id: DocId) -> Result<(), Memory> {
        if let Some(merge) = &mut self.merge {
            let kept = merge
                .keys
                .iter()
                .copied()
                .filter(|pair| pair.id != id)
                .collect(alloc)?;
            merge.keys = kept;
        }
        Ok(())
    }

    /// A document comes, or has another score or text.
    pub fn put(&mut self, alloc: Global, document: Document) -> Result<(), Memory> {
        let id = document.id;
        let entry = self.entry_now(id, document.score);
        let place = self.place_of(id);
        let mut documents = self.take_documents(alloc);
        if documents
            .get(place)
            .is_some_and(|listed| listed.document.id == id)
        {
            documents.remove(place);
        }
        let place = place.min(documents.len());
        documents.insert(place, Listed { document, entry })?;
        self.listing.documents = Items::from_vec(documents);
        Ok(())
    }

    /// A document goes, if it is there.
    pub fn take_out(&mut self, alloc: Global, id: DocId) -> Result<(), Memory> {
        let place = self.place_of(id);
        let mut documents = self.take_documents(alloc);
        if documents
            .get(place)
            .is_some_and(|listed| listed.document.id == id)
        {
            documents.remove(place);
        }
        self.listing.documents = Items::from_vec(documents);
        Ok(())
    }

    /// The scores of all documents.
    fn scores(&self, alloc: Global) -> Result<Vec<Score>, Memory> {
        let scores = self
            .documents()
            .iter()
            .map(|listed| listed.document.score)
            .collect(alloc)?;
        Ok(scores)
    }

    /// Begins a merge.
    pub fn begin(&mut self, alloc: Global, spec: &MethodSpec) -> Result<(), Memory> {
        let scores = self.scores(alloc)?;
        let method = method_of(alloc, spec, &scores)?;
        let mut keys = Vec::new(alloc);
        for listed in self.documents() {
            let key = method.key(listed.document.score);
            keys.push(Pair {
                key,
                id: listed.document.id,
            })?;
        }
        self.merge = Some(PlainMerge {
            method,
            keys,
            lists: Vec::new(alloc),
        });
        Ok(())
    }

    /// The new pairs of these ids, in page order.
    pub fn new_pairs(&self, alloc: Global, ids: &[DocId]) -> Result<Vec<Pair>, Memory> {
        let Some(merge) = &self.merge else {
            return Ok(Vec::new(alloc));
        };
        let mut pairs: Vec<Pair> = merge
            .keys
            .iter()
            .copied()
            .filter(|pair| ids.contains(&pair.id))
            .collect(alloc)?;
        pairs.sort_unstable_by(|a, b| b.key.cmp(&a.key).then(a.id.cmp(&b.id)));
        Ok(pairs)
    }

    /// Whether a term has a posted or a held pair.
    fn is_live(&self, alloc: Global, term: &Text) -> Result<bool, Memory> {
        let posted = self.listing.posted(alloc, term)?;
        let held = self.listing.held(alloc, term)?;
        Ok(!posted.is_empty() || !held.is_empty())
    }

    /// The terms of the posted pages and of the documents.
    fn all_terms(&self, alloc: Global) -> Result<Vec<&Text>, Memory> {
        let mut terms = Vec::new(alloc);
        for list in self.listing.lists.as_slice() {
            terms.push(&list.term)?;
        }
        for listed in self.documents() {
            for term in listed.document.terms.as_slice() {
                terms.push(term)?;
            }
        }
        Ok(terms)
    }

    /// The first term behind another, if any, that has a posted or a held pair.
    pub fn next_term(&self, alloc: Global, after: Option<&Text>) -> Result<Option<Text>, Memory> {
        let mut least: Option<&Text> = None;
        for term in self.all_terms(alloc)? {
            if comes_after(after, term)
                && least.is_none_or(|other| *term < *other)
                && self.is_live(alloc, term)?
            {
                least = Some(term);
            }
        }
        match least {
            Some(term) => Ok(Some(term.copy(alloc)?)),
            None => Ok(None),
        }
    }

    /// Gives the next term its pages, from an address on.
    pub fn slice(&mut self, alloc: Global, term: &Text, from: u64) -> Result<(), Memory> {
        let ids = self.listing.effective_ids(alloc, term)?;
        let pairs = self.new_pairs(alloc, &ids)?;
        let pages = Items::from_vec(pages_of(alloc, &pairs, from)?);
        let term = term.copy(alloc)?;
        if let Some(merge) = &mut self.merge {
            merge.lists.push(TermPages { term, pages })?;
        }
        Ok(())
    }

    /// Forgets a merge.
    pub fn forget(&mut self) {
        self.merge = None;
    }

    /// Puts a merge in the place of what was merged before.
    pub fn publish(&mut self, alloc: Global) -> Result<(), Memory> {
        let Some(merge) = self.merge.take() else {
            return Ok(());
        };
        let mut published = Vec::new(alloc);
        for listed in self.take_documents(alloc) {
            let entry = entry_by(&merge, listed.document.id, listed.document.score);
            let document = listed.document;
            published.push(Listed { document, entry })?;
        }
        self.listing = PlainListing {
            method: merge.method,
            documents: Items::from_vec(published),
            lists: Items::from_vec(merge.lists),
        };
        Ok(())
    }
}

/// The entry of a document by its new key, or by the key of its score where it was touched.
fn entry_by(merge: &PlainMerge, id: DocId, score: Score) -> ListKey {
    match merge.keys.iter().find(|pair| pair.id == id) {
        Some(pair) => ListKey {
            key: pair.key,
            moved: false,
        },
        None => ListKey {
            key: merge.method.key(score),
            moved: true,
        },
    }
}
