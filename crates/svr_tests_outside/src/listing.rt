ghost use Rattle.std.specs.Prelude.{◌<◌, ◌^◌, ◌==◌, Some, None, if◌then◌else◌, IfOk};
ghost use Rattle.std.specs.List.{AllByRecursion};
ghost use Rattle.svr_listing.specs.Groups.{IsOrdered};
ghost use Rattle.svr_listing.specs.Plain.{HasDivisor};

use std::alloc::Global;
use std::test::Fail;
use svr_edge::{Items, Memory, Text};
use svr_listing::{
    Document, Group, Listed, ListingMethod, Page, PlainListing, TermPages, are_ordered,
    best_of_groups, groups_in_all, groups_in_any, visited,
};
use svr_num::{DocId, ListKey, Mode, SCORE_MAX, Score, Scores};
use svr_postpage::{PageRef, Pair};

/// The scores of five documents, of which that of the first may change.
#[derive(Clone, Copy, Drop)]
struct Five {
    first: Score,
    ghost fits: { first < 2 ^ 48 },
}

impl Scores for Five {
    ghost score_of = { λ five id. if id == 1 then Some five.first else (if id == 2 then Some 10 else (if id == 3 then Some 20 else (if id == 4 then Some 40 else (if id == 5 then Some 80 else None)))) };

    fn score(&self, id: DocId) -> Option<Score> {
        match id {
            1 => Some(self.first),
            2 => Some(10),
            3 => Some(20),
            4 => Some(40),
            5 => Some(80),
            _ => None,
        }
    }
}

/// Where the first document is listed.
#[derive(Clone, Copy)]
struct First {
    score: Score,
    entry: ListKey,
}

/// It stands where it was merged, its score rises and stays at the key, and it rises further and moves.
const MERGED: First = First {
    score: 5,
    entry: ListKey {
        key: 0,
        moved: false,
    },
};

const RISEN: First = First {
    score: 15,
    entry: ListKey {
        key: 0,
        moved: false,
    },
};

const MOVED: First = First {
    score: 25,
    entry: ListKey {
        key: 2,
        moved: true,
    },
};

/// What a search tells: the groups, the hits, and how many groups it visits.
type Told = (&'static str, &'static str, usize);

/// A search for the best so many, and what it tells.
type Row = (First, &'static [&'static str], Mode, u32, Told);

const MERGED_A: &str = "4:5, 3:4, 2:3, 1:2, 0:1, ";

const MOVED_A: &str = "4:5, 3:4, 2:1,3, 1:2, 0: ";

const ROWS: &[Row] = &[
    (MERGED, &["a"], Mode::All, 1, (MERGED_A, "5=80 ", 2)),
    (
        MERGED,
        &["a"],
        Mode::All,
        1000,
        (MERGED_A, "5=80 4=40 3=20 2=10 1=5 ", 5),
    ),
    (MERGED, &["c"], Mode::All, 1, ("", "", 0)),
    (RISEN, &["b"], Mode::All, 1000, ("0:1, ", "1=15 ", 1)),
    (MOVED, &["b"], Mode::All, 1000, ("2:1, 0: ", "1=25 ", 2)),
    (
        MOVED,
        &["a"],
        Mode::All,
        4,
        (MOVED_A, "5=80 4=40 1=25 3=20 ", 4),
    ),
    (
        MOVED,
        &["a", "b"],
        Mode::All,
        10,
        ("4: 3: 2:1, 1: 0: ", "1=25 ", 5),
    ),
    (
        MOVED,
        &["b", "a"],
        Mode::Any,
        10,
        (MOVED_A, "5=80 4=40 1=25 3=20 2=10 ", 5),
    ),
    (MOVED, &["b", "c"], Mode::Any, 1, ("2:1, 0: ", "1=25 ", 1)),
];

/// Terms, their posted and held pairs, and the ids under them.
const UNDER: &[(First, &str, &str, &str, &str)] = &[
    (MERGED, "a", "4:5 3:4 2:3 1:2 0:1 ", "", "1,2,3,4,5,"),
    (MOVED, "a", "4:5 3:4 2:3 1:2 0:1 ", "2:1 ", "1,2,3,4,5,"),
    (MOVED, "b", "0:1 ", "2:1 ", "1,"),
    (RISEN, "c", "", "", ""),
];

fn texts(alloc: Global, words: &[&str]) -> Result<Items<Text>, Memory> {
    let mut texts = Vec::new(alloc);
    for word in words {
        texts.push(Text::new(alloc, word)?)?;
    }
    Ok(Items::from_vec(texts))
}

fn listed(
    alloc: Global,
    id: DocId,
    score: Score,
    entry: ListKey,
    words: &[&str],
) -> Result<Listed, Memory> {
    let document = Document {
        id,
        score,
        text: Text::new(alloc, "")?,
        terms: texts(alloc, words)?,
    };
    Ok(Listed { document, entry })
}

fn posted(alloc: Global, term: &str, pairs: &[Pair]) -> Result<TermPages, Memory> {
    let mut pages = Vec::new(alloc);
    if let Some(pair) = pairs.first() {
        let head = PageRef {
            at: 0,
            key: pair.key,
            id: pair.id,
            count: pairs.len().min(255) as u16,
        };
        let pairs = Items::from_vec(pairs.to_vec(alloc)?);
        pages.push(Page { head, pairs })?;
    }
    Ok(TermPages {
        term: Text::new(alloc, term)?,
        pages: Items::from_vec(pages),
    })
}

/// Chunks that begin with 0, 10, 20, 40 and 80.
fn chunks(alloc: Global) -> Result<ListingMethod, Memory>
    ensures { IfOk result (λ method. HasDivisor method) }
{
    let bounds = [0u64, 10, 20, 40, 80].to_vec(alloc)?;
    Ok(ListingMethod::Chunk(Items::from_vec(bounds)))
}

/// The posted pairs of the terms a and b.
const UNDER_A: &[Pair] = &[
    Pair { key: 4, id: 5 },
    Pair { key: 3, id: 4 },
    Pair { key: 2, id: 3 },
    Pair { key: 1, id: 2 },
    Pair { key: 0, id: 1 },
];

const UNDER_B: &[Pair] = &[Pair { key: 0, id: 1 }];

/// Five documents with the term a, the first with b too.
fn documents(alloc: Global, first: First) -> Result<Items<Listed>, Memory> {
    let mut documents = Vec::new(alloc);
    documents.push(listed(alloc, 1, first.score, first.entry, &["a", "b"])?)?;
    for (id, score) in [(2, 10), (3, 20), (4, 40), (5, 80)] {
        let entry = ListKey {
            key: id - 1,
            moved: false,
        };
        documents.push(listed(alloc, id, score, entry, &["a"])?)?;
    }
    Ok(Items::from_vec(documents))
}

fn lists(alloc: Global) -> Result<Items<TermPages>, Memory> {
    let mut lists = Vec::new(alloc);
    lists.push(posted(alloc, "b", UNDER_B)?)?;
    lists.push(posted(alloc, "a", UNDER_A)?)?;
    Ok(Items::from_vec(lists))
}

/// These documents, as they were merged; then the first may have moved.
fn listing(alloc: Global, first: First) -> Result<PlainListing, Memory> {
    let documents = documents(alloc, first)?;
    let lists = lists(alloc)?;
    let method = chunks(alloc)?;
    Ok(PlainListing {
        method,
        documents,
        lists,
    })
}

fn tell_ids(alloc: Global, told: &mut String, ids: &[DocId]) -> Result<(), Memory> {
    for id in ids {
        told.push_str(format!(in alloc; "{id},")?.as_str())?;
    }
    Ok(())
}

fn ids_told(alloc: Global, ids: &[DocId]) -> Result<String, Memory> {
    let mut told = String::new(alloc);
    tell_ids(alloc, &mut told, ids)?;
    Ok(told)
}

fn pairs_told(alloc: Global, pairs: &[Pair]) -> Result<String, Memory> {
    let mut told = String::new(alloc);
    for pair in pairs {
        told.push_str(format!(in alloc; "{}:{} ", pair.key, pair.id)?.as_str())?;
    }
    Ok(told)
}

fn groups_told(alloc: Global, groups: &[Group]) -> Result<String, Memory> {
    let mut told = String::new(alloc);
    for group in groups {
        told.push_str(format!(in alloc; "{}:", group.key)?.as_str())?;
        tell_ids(alloc, &mut told, group.ids.as_slice())?;
        told.push_str(" ")?;
    }
    Ok(told)
}

/// The groups of each term, put together.
fn joined(
    alloc: Global,
    listing: &PlainListing,
    words: &[&str],
    mode: Mode,
) -> Result<Vec<Group>, Memory> {
    let mut lists = Vec::new(alloc);
    for word in words {
        let term = texts(alloc, &[*word])?;
        lists.push(Items::from_vec(listing.groups_of(alloc, term.as_slice(), Mode::All)?))?;
    }
    match mode {
        Mode::All => groups_in_all(alloc, &lists),
        Mode::Any => groups_in_any(alloc, &lists),
    }
}

fn hits_told(alloc: Global, groups: &[Group], first: First, k: u32) -> Result<String, Memory>
    requires { AllByRecursion IsOrdered groups.now }
{
    let scores = Five {
        first: first.score.min(SCORE_MAX),
    };
    let mut told = String::new(alloc);
    for hit in &best_of_groups(alloc, k, &scores, groups)? {
        told.push_str(format!(in alloc; "{}={} ", hit.id, hit.score)?.as_str())?;
    }
    Ok(told)
}

fn visits(alloc: Global, groups: &[Group], first: First, k: u32) -> Result<usize, Memory>
    requires { AllByRecursion IsOrdered groups.now }
{
    let scores = Five {
        first: first.score.min(SCORE_MAX),
    };
    let method = chunks(alloc)?;
    visited(alloc, k.max(1), &method, &scores, groups)
}

/// Whether a search among groups tells what is wanted.
fn tells_search(
    alloc: Global,
    groups: &[Group],
    first: First,
    k: u32,
    wanted: &Told,
) -> Result<bool, Memory> {
    if !are_ordered(groups) || groups_told(alloc, groups)?.as_str() != wanted.0 {
        return Ok(false);
    }
    let hits = hits_told(alloc, groups, first, k)?;
    Ok(hits.as_str() == wanted.1 && visits(alloc, groups, first, k)? == wanted.2)
}

/// Whether a search tells what is wanted, among the groups of the query and those of its terms put together.
fn tells_row(alloc: Global, listing: &PlainListing, row: &Row) -> Result<bool, Memory> {
    let (first, words, mode, k, told) = row;
    let terms = texts(alloc, words)?;
    let groups = listing.groups_of(alloc, terms.as_slice(), *mode)?;
    if !tells_search(alloc, &groups, *first, *k, told)? {
        return Ok(false);
    }
    let groups = joined(alloc, listing, words, *mode)?;
    tells_search(alloc, &groups, *first, *k, told)
}

fn first_wrong_search(alloc: Global) -> Result<Option<usize>, Memory> {
    for (place, row) in ROWS.iter().enumerate() {
        let listing = listing(alloc, row.0)?;
        if !tells_row(alloc, &listing, row)? {
            return Ok(Some(place));
        }
    }
    Ok(None)
}

/// Whether these are the posted and the held pairs of a term.
fn has_pairs(
    alloc: Global,
    listing: &PlainListing,
    term: &Text,
    posted: &str,
    held: &str,
) -> Result<bool, Memory> {
    let pairs = listing.posted(alloc, term)?;
    let is_posted = pairs_told(alloc, &pairs)?.as_str() == posted;
    let pairs = listing.held(alloc, term)?;
    Ok(is_posted && pairs_told(alloc, &pairs)?.as_str() == held)
}

/// Whether these are the ids under a term.
fn has_ids(
    alloc: Global,
    listing: &PlainListing,
    term: &Text,
    wanted: &str,
) -> Result<bool, Memory> {
    let ids = listing.effective_ids(alloc, term)?;
    Ok(ids_told(alloc, &ids)?.as_str() == wanted)
}

/// The first term under which something else stands.
fn first_wrong_term(alloc: Global) -> Result<Option<usize>, Memory> {
    for (place, (first, word, posted, held, ids)) in UNDER.iter().enumerate() {
        let listing = listing(alloc, *first)?;
        let term = Text::new(alloc, word)?;
        if !has_pairs(alloc, &listing, &term, posted, held)?
            || !has_ids(alloc, &listing, &term, ids)?
        {
            return Ok(Some(place));
        }
    }
    Ok(None)
}

#[test]
fn plain_listings_are_searched_by_their_definitions(rt: HostRuntime) -> Result<(), Fail> {
    let search = first_wrong_search(rt.alloc())?;
    let term = first_wrong_term(rt.alloc())?;
    assert!(rt; search.is_none() && term.is_none(), "{search:?} {term:?}");
    Ok(())
}
