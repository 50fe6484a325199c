//! Sessions worked by hand.
use crate::over_pages::check::{Query, is_served};
use crate::over_pages::shop::Shop;
use crate::over_pages::stop::Stop;
use crate::over_pages::told::pages_of;
use crate::rows::text_of;
use std::alloc::Global;
use std::test::Fail;
use svr_edge::{Memory, Text};
use svr_iter::ScanFault;
use svr_num::{ListKey, Mode};
use svr_postpage::PageFault;
use svr_schema::MethodSpec;
use svr_tokens::tokens;

/// A step of a session, with what it is to tell.
#[derive(Clone, Copy)]
enum Step {
    /// A document comes, or has another score or text: its id, score and text.
    Put(u64, u64, &'static str),
    Out(u64),
    /// A whole merge.
    Merge,
    Begin,
    Slice(u32),
    /// How many terms are left to be sliced.
    Left(u64),
    Publish,
    Forget,
    /// Where a document is listed: its id, its key and whether it is moved.
    At(u64, u64, bool),
    /// Documents with all of the words: the words, how many, hits and groups.
    Find(&'static str, u32, &'static str),
    /// Documents with any of the words.
    Any(&'static str, u32, &'static str),
    /// The documents under a term.
    Under(&'static str, &'static str),
    /// From now on the disk gives one byte of the first page of a term inverted.
    Flip(&'static str, u64),
}

use Step::{Any, At, Begin, Find, Flip, Forget, Left, Merge, Out, Publish, Put, Slice, Under};

const CHUNK: MethodSpec = MethodSpec::Chunk {
    ratio: 200,
    min_docs: 1,
};

const THREE_HALVES: MethodSpec = MethodSpec::Threshold { num: 3, den: 2 };

const SAME: MethodSpec = MethodSpec::Threshold { num: 1, den: 1 };

/// By id: one group, and no document ever moves.
const BY_ID: &[Step] = &[
    Put(1, 5, "red car"),
    Put(2, 9, "blue car"),
    Find("car", 1, "2:9 in 1"),
    Put(1, 10, "red car"),
    Find("car", 1, "1:10 in 1"),
    Find("dog", 1, "in 0"),
    At(1, 0, true),
    Merge,
    At(1, 0, false),
    Put(1, 3, "red bus"),
    Find("car", 9, "2:9 in 1"),
    Any("bus car", 9, "2:9 1:3 in 1"),
    Find("bus car", 9, "in 1"),
    Out(2),
    Find("car", 9, "in 1"),
    At(1, 0, false),
];

/// By score: each change moves a document, and a dead posting keeps its key.
const BY_SCORE: &[Step] = &[
    Put(3, 10, "x"),
    Put(9, 15, "x"),
    Find("x", 1, "9:15 in 1"),
    Put(3, 20, "x"),
    At(3, 20, true),
    Find("x", 1, "3:20 in 1"),
    Find("x", 9, "3:20 9:15 in 2"),
    Merge,
    At(3, 20, false),
    Put(3, 12, "x"),
    At(3, 12, true),
    Find("x", 1, "9:15 in 2"),
    Find("x", 2, "9:15 3:12 in 3"),
    Put(3, 20, "x"),
    At(3, 20, true),
    Find("x", 2, "3:20 9:15 in 2"),
];

/// By a threshold of 3/2: a score equal to the bound goes on, and a document stays up to it.
const BY_THRESHOLD: &[Step] = &[
    Put(3, 10, "x"),
    Put(9, 15, "x"),
    Put(3, 15, "x"),
    At(3, 10, true),
    Find("x", 1, "3:15 in 2"),
    Merge,
    At(3, 15, false),
    Find("x", 1, "3:15 in 1"),
    Put(9, 22, "x"),
    At(9, 15, false),
    Find("x", 1, "9:22 in 1"),
    Put(9, 23, "x"),
    At(9, 23, true),
    Find("x", 1, "9:23 in 1"),
    Find("x", 2, "9:23 3:15 in 2"),
];

/// A score that rises and falls again: the document moves, and stays where it moved to.
const RISES_AND_FALLS: &[Step] = &[
    Put(1, 0, "rain"),
    Merge,
    Put(1, 50, "rain"),
    Put(1, 0, "rain"),
    At(1, 50, true),
    Find("rain", 10, "1:0 in 2"),
];

/// By chunks: a document stays in its chunk until its score is two chunks above.
const BY_CHUNK: &[Step] = &[
    Put(1, 5, "common solo"),
    Put(2, 10, "common"),
    Put(3, 20, "common"),
    Put(4, 40, "common"),
    Put(5, 80, "common"),
    Find("common", 1, "5:80 in 1"),
    Merge,
    At(5, 4, false),
    At(1, 0, false),
    Find("common", 1, "5:80 in 2"),
    Find("common", 1000, "5:80 4:40 3:20 2:10 1:5 in 5"),
    Put(1, 15, "common solo"),
    At(1, 0, false),
    Find("solo", 1000, "1:15 in 1"),
    Put(1, 25, "common solo"),
    At(1, 2, true),
    Find("solo", 1000, "1:25 in 2"),
    Find("common", 4, "5:80 4:40 1:25 3:20 in 4"),
    Under("common", "1,2,3,4,5,"),
    Under("solo", "1,"),
    Under("none", ""),
];

/// A text that changes: its document stays unmoved, and marks tell which terms it has.
const EDITED: &[Step] = &[
    Put(1, 5, "red car"),
    Merge,
    Put(1, 5, "red bus"),
    At(1, 0, false),
    Find("car", 10, "in 1"),
    Find("bus", 10, "1:5 in 1"),
    Find("red", 10, "1:5 in 1"),
    Under("car", ""),
    Merge,
    Find("car", 10, "in 0"),
    Find("bus", 10, "1:5 in 1"),
];

/// A term that goes and comes again.
const GONE_AND_BACK: &[Step] = &[
    Put(1, 5, "a b"),
    Merge,
    Put(1, 5, "b"),
    Under("a", ""),
    Under("b", "1,"),
    Find("a b", 9, "in 1"),
    Put(1, 5, "a b"),
    Find("a b", 9, "1:5 in 1"),
    At(1, 0, false),
];

/// A document that goes, and another of its id that comes.
const ANOTHER: &[Step] = &[
    Put(7, 5, "old words"),
    Merge,
    Out(7),
    Find("old", 10, "in 1"),
    Put(7, 5, "new text"),
    At(7, 0, true),
    Find("old", 10, "in 1"),
    Find("new", 10, "7:5 in 1"),
    Find("old new", 10, "in 1"),
];

/// A score that changes between the slices of a merge.
const BETWEEN: &[Step] = &[
    Put(1, 50, "rain"),
    Put(2, 5, "rain sun"),
    Put(3, 500, "sun"),
    Begin,
    Left(2),
    Slice(1),
    Left(1),
    Put(2, 505, "rain sun"),
    Find("rain", 10, "2:505 1:50 in 1"),
    Slice(10),
    Left(0),
    Publish,
    At(2, 2, true),
    At(1, 1, false),
    Find("rain", 10, "2:505 1:50 in 3"),
    Find("sun", 10, "2:505 3:500 in 1"),
];

/// A document that goes and comes again during a merge, with another text.
const TOUCHED: &[Step] = &[
    Put(1, 5, "a"),
    Begin,
    Slice(1),
    Left(0),
    Out(1),
    Put(1, 7, "b"),
    Left(1),
    Slice(10),
    Left(0),
    Publish,
    Find("a", 9, "in 1"),
    Find("b", 9, "1:7 in 1"),
    Merge,
    Find("a", 9, "in 0"),
];

/// A merge that is forgotten leaves all as it was.
const FORGOTTEN: &[Step] = &[
    Put(1, 5, "a"),
    Put(2, 6, "a b"),
    Merge,
    Put(2, 60, "b"),
    Begin,
    Slice(1),
    Forget,
    At(1, 0, false),
    Find("a", 9, "1:5 in 2"),
    Begin,
    Slice(9),
    Put(1, 5, "c"),
    Slice(9),
    Publish,
    At(1, 0, true),
    Any("a b c", 9, "2:60 1:5 in 2"),
];

/// A page of which a byte is given inverted: it stays a page with another second pair, and then is none.
const FLIPPED: &[Step] = &[
    Put(1, 5, "common solo"),
    Put(2, 10, "common"),
    Put(3, 20, "common"),
    Put(4, 40, "common"),
    Put(5, 80, "common"),
    Merge,
    Find("common", 1, "5:80 in 2"),
    Flip("common", 35),
    Find("common", 2, "5:80 3:20 in 4"),
    Flip("solo", 35),
    Find("common", 2, "5:80 4:40 in 3"),
    Find("solo", 2, "damaged"),
    Flip("common", 0),
    Find("common", 1, "damaged"),
    Find("solo", 1, "1:5 in 1"),
];

/// Methods, how many pages are cached, and sessions.
const SESSIONS: &[(MethodSpec, u32, &[Step])] = &[
    (MethodSpec::Id, 4, BY_ID),
    (MethodSpec::Score, 4, BY_SCORE),
    (THREE_HALVES, 4, BY_THRESHOLD),
    (SAME, 4, RISES_AND_FALLS),
    (CHUNK, 4, BY_CHUNK),
    (CHUNK, 0, EDITED),
    (CHUNK, 4, GONE_AND_BACK),
    (CHUNK, 4, ANOTHER),
    (CHUNK, 1, BETWEEN),
    (CHUNK, 4, TOUCHED),
    (CHUNK, 4, FORGOTTEN),
    (CHUNK, 0, FLIPPED),
];

/// What a search tells.
fn found(alloc: Global, shop: &mut Shop, query: &Query) -> Result<String, Stop> {
    let terms = tokens(alloc, query.words)?;
    match shop.search(alloc, &terms, query.mode, query.k) {
        Ok(answer) => Ok(text_of(alloc, &answer)?),
        Err(Stop::Scan(ScanFault::Page(PageFault::Damaged { .. }))) => {
            Ok(String::from_str(alloc, "damaged")?)
        }
        Err(stop) => Err(stop),
    }
}

/// Whether a search tells what is wanted, and what is right.
fn finds(alloc: Global, shop: &mut Shop, query: &Query, wanted: &str) -> Result<bool, Stop> {
    let is_wanted = found(alloc, shop, query)?.as_str() == wanted;
    Ok(is_wanted && is_served(alloc, shop, query)?)
}

/// Inverts a byte of the first page of a term.
fn flip(alloc: Global, shop: &mut Shop, term: &str, byte: u64) -> Result<(), Memory> {
    let term = Text::new(alloc, term)?;
    if let Some(page) = pages_of(&shop.plain.listing, &term).first() {
        shop.shelf.flip(page.head.at.saturating_add(byte));
    }
    Ok(())
}

/// Makes a step that changes something.
fn make(alloc: Global, shop: &mut Shop, step: &Step) -> Result<(), Stop> {
    match *step {
        Put(id, score, text) => shop.put(alloc, id, score, text),
        Out(id) => shop.take_out(alloc, id),
        Merge => shop.merge(alloc),
        Begin => shop.begin(alloc),
        Slice(terms) => shop.slice(alloc, terms),
        Publish => shop.publish(alloc),
        Forget => {
            shop.forget();
            Ok(())
        }
        Flip(term, byte) => Ok(flip(alloc, shop, term, byte)?),
        _ => Ok(()),
    }
}

/// Makes a step, and answers whether it tells what is wanted.
fn tells(alloc: Global, shop: &mut Shop, step: &Step) -> Result<bool, Stop> {
    match *step {
        At(id, key, moved) => Ok(shop.index.entry(id) == Some(ListKey { key, moved })),
        Left(terms) => Ok(shop.left(alloc)? == terms),
        Find(words, k, wanted) => {
            let mode = Mode::All;
            finds(alloc, shop, &Query { words, mode, k }, wanted)
        }
        Any(words, k, wanted) => {
            let mode = Mode::Any;
            finds(alloc, shop, &Query { words, mode, k }, wanted)
        }
        Under(term, wanted) => Ok(shop.under(alloc, term)?.as_str() == wanted),
        _ => {
            make(alloc, shop, step)?;
            Ok(true)
        }
    }
}

/// The first step of a session that tells something else, or isn't made.
fn first_wrong(
    alloc: Global,
    spec: MethodSpec,
    cache: u32,
    steps: &[Step],
) -> Result<Option<usize>, Stop> {
    let mut shop = Shop::new(alloc, spec, cache)?;
    for (place, step) in steps.iter().enumerate() {
        if !tells(alloc, &mut shop, step)? || !shop.has_entries() {
            return Ok(Some(place));
        }
    }
    Ok(None)
}

#[test]
fn sessions_tell_the_rows(rt: HostRuntime) -> Result<(), Fail> {
    for (number, (spec, cache, steps)) in SESSIONS.iter().enumerate() {
        let wrong = match first_wrong(rt.alloc(), *spec, *cache, steps) {
            Ok(wrong) => wrong,
            Err(_) => Some(1000),
        };
        assert!(rt; wrong.is_none(), "session {number}, step {wrong:?}");
    }
    Ok(())
}
