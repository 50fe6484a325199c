//! Which pages searches read.
ghost use Rattle.std.specs.Prelude.{IfOk};
ghost use Rattle.svr_fakes.specs.Disks.{view_of};
ghost use Rattle.svr_pages.specs.Asked.{IsReady};

use crate::over_pages::asked::are_within;
use crate::over_pages::reader::OwnReader;
use crate::over_pages::shop::Shop;
use crate::over_pages::stop::Stop;
use crate::over_pages::told::pages_of;
use crate::search::Table;
use std::alloc::Global;
use std::test::Fail;
use svr_edge::{Memory, Text};
use svr_fakes::MemDisk;
use svr_index::Index;
use svr_num::{Hit, Mode};
use svr_pages::Pages;
use svr_postpage::PageRef;
use svr_schema::MethodSpec;
use svr_tokens::{Tokens, tokens};
use svr_topk::Answer;

const CHUNK: MethodSpec = MethodSpec::Chunk {
    ratio: 200,
    min_docs: 1,
};

/// A search for so many, the last hit, the number of groups, and which pages of the list are read.
type Row = (u32, u64, u64, &'static [usize]);

/// How many pages are cached, and searches one after the other.
const ROWS: &[(u32, &[Row])] = &[
    (0, &[(1, 600, 2, &[0, 1]), (1, 600, 2, &[0, 1])]),
    (0, &[(100, 501, 3, &[0, 1])]),
    (0, &[(400, 201, 4, &[0, 1, 2])]),
    (0, &[(1000, 1, 10, &[0, 1, 2])]),
    (
        16,
        &[
            (1, 600, 2, &[0, 1]),
            (1, 600, 2, &[]),
            (400, 201, 4, &[2]),
            (100, 501, 3, &[]),
        ],
    ),
    (1, &[(1, 600, 2, &[0, 1]), (1, 600, 2, &[0, 1])]),
    (
        2,
        &[
            (1, 600, 2, &[0, 1]),
            (1, 600, 2, &[]),
            (400, 201, 4, &[2]),
            (1, 600, 2, &[0, 1]),
        ],
    ),
];

/// Documents 1 to 600, each with its id as its score and one word, merged: a list of three pages.
fn stocked(alloc: Global) -> Result<Shop, Stop> {
    let mut shop = Shop::new(alloc, CHUNK, 0)?;
    for id in 1..601 {
        shop.put(alloc, id, id, "w")?;
    }
    shop.merge(alloc)?;
    Ok(shop)
}

/// Whether the reads from a place on are of these pages, each whole.
fn are_reads(reads: &[(u64, u64)], before: usize, pages: &[PageRef], wanted: &[usize]) -> bool {
    let made = reads.len().saturating_sub(before);
    if made != wanted.len() {
        return false;
    }
    for (read, place) in reads.iter().skip(before).zip(wanted.iter()) {
        match pages.get(*place) {
            Some(page) if *read == (page.at, 4096) => {}
            _ => return false,
        }
    }
    true
}

/// Whether an answer has so many hits, this last one, and so many groups.
fn is_answer(answer: &Answer, k: u32, last: u64, groups: u64) -> bool {
    let hits = answer.hits.as_slice();
    let many = hits.len() as u64 == u64::from(k.min(600));
    let wanted = Hit {
        id: last,
        score: last,
    };
    many && hits.last() == Some(&wanted) && answer.groups == groups
}

/// Searches over a disk in memory.
fn search(
    alloc: Global,
    index: &Index,
    scores: &Table,
    terms: &Tokens,
    k: u32,
    reader: &mut OwnReader<MemDisk>,
) -> Result<Answer, Stop>
    requires { IsReady reader.old.reach (view_of reader.old.disk) reader.old.pages }
    ensures { IsReady reader.new.reach (view_of reader.new.disk) reader.new.pages }
{
    if terms.len() == 0 || k == 0 || k > 1000 || !are_within(index, scores) {
        return Err(Stop::Barred);
    }
    Ok(index.search(alloc, terms, Mode::All, k, scores, reader)?)
}

/// A reader over a disk in memory with these bytes, of which nothing is cached.
fn reader_over(alloc: Global, bytes: &[u8], cache: u32) -> Result<OwnReader<MemDisk>, Memory>
    ensures { IfOk result (λ reader. IsReady reader.reach (view_of reader.disk) reader.pages) }
{
    Ok(OwnReader {
        pages: Pages::new(alloc, cache)?,
        disk: MemDisk::new(bytes.to_vec(alloc)?, Vec::new(alloc)),
        reach: bytes.len() as u64,
    })
}

/// Whether all searches answer and read what is wanted.
fn are_searched(
    alloc: Global,
    shop: &Shop,
    refs: &[PageRef],
    cache: u32,
    rows: &[Row],
) -> Result<bool, Stop> {
    let scores = shop.scores(alloc)?;
    let terms = tokens(alloc, "w")?;
    let mut reader = reader_over(alloc, shop.shelf.bytes(), cache)?;
    for (k, last, groups, wanted) in rows {
        let before = reader.disk.reads().len();
        let answer = search(alloc, &shop.index, &scores, &terms, *k, &mut reader)?;
        if !is_answer(&answer, *k, *last, *groups)
            || !are_reads(reader.disk.reads(), before, refs, wanted)
        {
            return Ok(false);
        }
    }
    Ok(true)
}

/// The pages of a term.
fn refs_of(alloc: Global, shop: &Shop, term: &str) -> Result<Vec<PageRef>, Memory> {
    let term = Text::new(alloc, term)?;
    let pages = pages_of(&shop.plain.listing, &term);
    Ok(pages.iter().map(|page| page.head).collect(alloc)?)
}

/// The first row that isn't so.
fn first_wrong(alloc: Global) -> Result<Option<usize>, Stop> {
    let shop = stocked(alloc)?;
    let refs = refs_of(alloc, &shop, "w")?;
    for (place, (cache, rows)) in ROWS.iter().enumerate() {
        if !are_searched(alloc, &shop, &refs, *cache, rows)? {
            return Ok(Some(place));
        }
    }
    Ok(None)
}

#[test]
fn searches_read_the_needed_pages(rt: HostRuntime) -> Result<(), Fail> {
    let wrong = match first_wrong(rt.alloc()) {
        Ok(wrong) => wrong,
        Err(_) => Some(1000),
    };
    assert!(rt; wrong.is_none(), "row {wrong:?}");
    Ok(())
}
