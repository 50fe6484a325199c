//! What a plain listing answers by the bytes of its pages.
use crate::over_pages::shelf::page_bytes;
use std::alloc::Global;
use svr_edge::{Items, Memory, Text};
use svr_listing::{Group, Listed, Page, PlainListing};
use svr_num::{DocId, Mode};
use svr_postpage::{Damage, PageRef, Pair, pair_at, read_page};

/// What is wrong with the bytes at a page's address, if anything is.
pub fn damage_of(bytes: &[u8], page: &PageRef) -> Option<Damage> {
    match page_bytes(bytes, page.at) {
        Some(found) => page.damage_in(&found),
        None => Some(Damage::NotAPage),
    }
}

/// The pairs of a page's bytes; none where they are no page.
fn pairs_in(alloc: Global, bytes: &[u8; 4096]) -> Result<Vec<Pair>, Memory> {
    let mut pairs = Vec::new(alloc);
    if let Ok(page) = read_page(bytes, 0) {
        for i in 0..page.count {
            pairs.push(pair_at(bytes, i))?;
        }
    }
    Ok(pairs)
}

/// The pairs of a page, by the bytes: its first one alone where they are another page, or none.
fn page_pairs(alloc: Global, bytes: &[u8], page: &PageRef) -> Result<Vec<Pair>, Memory> {
    if damage_of(bytes, page).is_none()
        && let Some(found) = page_bytes(bytes, page.at)
    {
        return pairs_in(alloc, &found);
    }
    let mut pairs = Vec::new(alloc);
    pairs.push(Pair {
        key: page.key,
        id: page.id,
    })?;
    Ok(pairs)
}

/// The pairs that the pages of a term hold, each page without what doesn't stand in front of the next one.
fn pairs_by(alloc: Global, bytes: &[u8], pages: &[Page]) -> Result<Vec<Pair>, Memory> {
    let mut all = Vec::new(alloc);
    for (i, page) in pages.iter().enumerate() {
        let next = pages.get(i.saturating_add(1));
        for pair in &page_pairs(alloc, bytes, &page.head)? {
            let is_ahead = match next {
                Some(next) => pair.is_before(&Pair {
                    key: next.head.key,
                    id: next.head.id,
                }),
                None => true,
            };
            if is_ahead {
                all.push(*pair)?;
            }
        }
    }
    Ok(all)
}

/// What is known of a term: its posted pairs, the pairs that its pages hold by the bytes, and those of the documents that are held.
#[derive(Drop)]
struct Told {
    term: Text,
    posted: Vec<Pair>,
    told: Vec<Pair>,
    held: Vec<Pair>,
}

/// The pages of a term.
pub fn pages_of<'a>(listing: &'a PlainListing, term: &Text) -> &'a [Page] {
    for list in listing.lists.as_slice() {
        if *term == list.term {
            return list.pages.as_slice();
        }
    }
    &[]
}

impl Told {
    fn new(
        alloc: Global,
        listing: &PlainListing,
        bytes: &[u8],
        term: &Text,
    ) -> Result<Told, Memory> {
        let posted = listing.posted(alloc, term)?;
        let told = pairs_by(alloc, bytes, pages_of(listing, term))?;
        let held = listing.held(alloc, term)?;
        let term = term.copy(alloc)?;
        Ok(Told {
            term,
            posted,
            told,
            held,
        })
    }

    /// Whether a document stands under the term, by the bytes.
    fn has(&self, listed: &Listed) -> bool {
        let pair = Pair {
            key: listed.entry.key,
            id: listed.document.id,
        };
        let terms = listed.document.terms.as_slice();
        let has_term = terms.iter().any(|term| *term == self.term);
        let is_told = self.told.contains(&pair) && (has_term || !self.posted.contains(&pair));
        self.held.contains(&pair) || (!listed.entry.moved && is_told)
    }
}

fn told_of(
    alloc: Global,
    listing: &PlainListing,
    bytes: &[u8],
    terms: &[Text],
) -> Result<Vec<Told>, Memory> {
    let mut all = Vec::new(alloc);
    for term in terms {
        all.push(Told::new(alloc, listing, bytes, term)?)?;
    }
    Ok(all)
}

/// The keys of pairs that pages hold, or documents that are held, descending, each once.
fn keys_of(alloc: Global, all: &[Told]) -> Result<Vec<u64>, Memory> {
    let mut keys = Vec::new(alloc);
    for told in all {
        for pair in told.told.iter().chain(told.held.iter()) {
            if !keys.contains(&pair.key) {
                keys.push(pair.key)?;
            }
        }
    }
    keys.sort_unstable_by(|a, b| b.cmp(a));
    Ok(keys)
}

fn matches(all: &[Told], mode: Mode, listed: &Listed) -> bool {
    match mode {
        Mode::All => all.iter().all(|told| told.has(listed)),
        Mode::Any => all.iter().any(|told| told.has(listed)),
    }
}

fn ids_at(
    alloc: Global,
    documents: &[Listed],
    all: &[Told],
    mode: Mode,
    key: u64,
) -> Result<Vec<DocId>, Memory> {
    let ids = documents
        .iter()
        .filter(|listed| listed.entry.key == key && matches(all, mode, listed))
        .map(|listed| listed.document.id)
        .collect(alloc)?;
    Ok(ids)
}

/// The groups of a query, by the bytes.
pub fn groups_by_bytes(
    alloc: Global,
    listing: &PlainListing,
    bytes: &[u8],
    terms: &[Text],
    mode: Mode,
) -> Result<Vec<Group>, Memory> {
    let all = told_of(alloc, listing, bytes, terms)?;
    let mut groups = Vec::new(alloc);
    for key in &keys_of(alloc, &all)? {
        let ids = ids_at(alloc, listing.documents.as_slice(), &all, mode, *key)?;
        groups.push(Group {
            key: *key,
            ids: Items::from_vec(ids),
        })?;
    }
    Ok(groups)
}

/// The documents that stand under a term, by the bytes.
pub fn docs_by_bytes(
    alloc: Global,
    listing: &PlainListing,
    bytes: &[u8],
    term: &Text,
) -> Result<Vec<DocId>, Memory> {
    let told = Told::new(alloc, listing, bytes, term)?;
    let ids = listing
        .documents
        .as_slice()
        .iter()
        .filter(|listed| told.has(listed))
        .map(|listed| listed.document.id)
        .collect(alloc)?;
    Ok(ids)
}
