//! Searches of an index beside those of the plain listing.
ghost use Rattle.std.specs.Prelude.{◌<◌};

use crate::over_pages::asked::has_divisor;
use crate::over_pages::shop::{Shop, texts_of};
use crate::over_pages::stop::Stop;
use crate::over_pages::told::{damage_of, docs_by_bytes, groups_by_bytes, pages_of};
use crate::search::Table;
use std::alloc::Global;
use svr_edge::{Memory, Text};
use svr_iter::ScanFault;
use svr_listing::{
    Document, Group, Listed, ListingMethod, PlainListing, are_ordered, best_of_groups, visited,
};
use svr_num::{Hit, Mode};
use svr_postpage::{Damage, PageFault};
use svr_tokens::{Tokens, tokens};
use svr_topk::Answer;

/// A query: words, whether all or any of them are wanted, and how many hits.
#[derive(Clone, Copy)]
pub struct Query<'a> {
    pub words: &'a str,
    pub mode: Mode,
    pub k: u32,
}

fn has(document: &Document, term: &Text) -> bool {
    let terms = document.terms.as_slice();
    terms.iter().any(|other| *other == *term)
}

fn matches(document: &Document, terms: &[Text], mode: Mode) -> bool {
    match mode {
        Mode::All => terms.iter().all(|term| has(document, term)),
        Mode::Any => terms.iter().any(|term| has(document, term)),
    }
}

/// The best documents that match, best first.
fn best_of(
    alloc: Global,
    documents: &[Listed],
    terms: &[Text],
    mode: Mode,
    k: u32,
) -> Result<Vec<Hit>, Memory> {
    let mut hits = Vec::new(alloc);
    for listed in documents {
        if matches(&listed.document, terms, mode) {
            hits.push(Hit {
                id: listed.document.id,
                score: listed.document.score,
            })?;
        }
    }
    hits.sort_unstable_by(|a, b| b.score.cmp(&a.score).then(a.id.cmp(&b.id)));
    hits.truncate(k as usize);
    Ok(hits)
}

/// Whether an answer is that of these groups.
fn is_of(
    alloc: Global,
    groups: &[Group],
    method: &ListingMethod,
    scores: &Table,
    k: u32,
    answer: &Answer,
) -> Result<bool, Memory> {
    if k == 0 || !are_ordered(groups) || !has_divisor(method) {
        return Ok(false);
    }
    let best = best_of_groups(alloc, k, scores, groups)?;
    let count = visited(alloc, k, method, scores, groups)?;
    Ok(answer.hits.as_slice() == best.as_slice() && answer.groups == count as u64)
}

/// Whether an answer is that of a listing whose pages hold their posted pairs.
fn is_whole(
    alloc: Global,
    listing: &PlainListing,
    scores: &Table,
    terms: &[Text],
    query: &Query,
    answer: &Answer,
) -> Result<bool, Memory> {
    let groups = listing.groups_of(alloc, terms, query.mode)?;
    let documents = listing.documents.as_slice();
    let best = best_of(alloc, documents, terms, query.mode, query.k)?;
    let is_best = answer.hits.as_slice() == best.as_slice();
    Ok(is_best && is_of(alloc, &groups, &listing.method, scores, query.k, answer)?)
}

/// Whether an answer is the one that the bytes of the disk give.
fn is_told(
    alloc: Global,
    shop: &Shop,
    scores: &Table,
    terms: &[Text],
    query: &Query,
    answer: &Answer,
) -> Result<bool, Memory> {
    let listing = &shop.plain.listing;
    let groups = groups_by_bytes(alloc, listing, shop.shelf.bytes(), terms, query.mode)?;
    is_of(alloc, &groups, &listing.method, scores, query.k, answer)
}

/// Whether an answer is right: by the bytes of the disk, and where these were not changed by the documents.
fn is_right(
    alloc: Global,
    shop: &Shop,
    terms: &Tokens,
    query: &Query,
    answer: &Answer,
) -> Result<bool, Memory> {
    let terms = texts_of(alloc, terms)?;
    let scores = shop.scores(alloc)?;
    if !is_told(alloc, shop, &scores, &terms, query, answer)? {
        return Ok(false);
    }
    if shop.shelf.is_changed() {
        return Ok(true);
    }
    is_whole(alloc, &shop.plain.listing, &scores, &terms, query, answer)
}

/// Whether a page of a term has this damage.
fn has_damage(shop: &Shop, term: &Text, at: u64, why: Damage) -> bool {
    let bytes = shop.shelf.bytes();
    pages_of(&shop.plain.listing, term).iter().any(|page| page.head.at == at
        && damage_of(bytes, &page.head) == Some(why))
}

/// Whether a page of one of the terms has this damage.
fn have_damage(shop: &Shop, terms: &Tokens, at: u64, why: Damage) -> bool {
    for i in 0..terms.len() {
        if has_damage(shop, terms.get(i), at, why) {
            return true;
        }
    }
    false
}

/// Whether the documents under a term are those that stand there by the bytes, or the damage of a page is told.
pub fn is_gathered(alloc: Global, shop: &mut Shop, term: &str) -> Result<bool, Stop> {
    let term = Text::new(alloc, term)?;
    match shop.shelf.docs(alloc, &shop.index, &term) {
        Ok(ids) => {
            let told = docs_by_bytes(alloc, &shop.plain.listing, shop.shelf.bytes(), &term)?;
            Ok(ids.as_slice() == told.as_slice())
        }
        Err(ScanFault::Page(PageFault::Damaged { at, why })) => {
            Ok(has_damage(shop, &term, at, why))
        }
        Err(fault) => Err(Stop::Scan(fault)),
    }
}

/// Whether a search answers what is right, or tells the damage of a page.
pub fn is_served(alloc: Global, shop: &mut Shop, query: &Query) -> Result<bool, Stop> {
    let terms = tokens(alloc, query.words)?;
    match shop.search(alloc, &terms, query.mode, query.k) {
        Ok(answer) => Ok(is_right(alloc, shop, &terms, query, &answer)?),
        Err(Stop::Scan(ScanFault::Page(PageFault::Damaged { at, why }))) => {
            Ok(have_damage(shop, &terms, at, why))
        }
        Err(stop) => Err(stop),
    }
}
