//! Changes of an index. Nobody asks for their steps, so that each has a ledger of its own.
ghost use Rattle.std.specs.Prelude.{◌≡◌, ◌<◌};

use crate::over_pages::stop::Stop;
use std::alloc::Global;
use std::marker::Brand;
use std::sync::ledger::{Blank, Ledger};
use svr_edge::Memory;
use svr_index::Index;
use svr_listing::Listed;
use svr_listkey::ListKeys;
use svr_merge::MergeRun;
use svr_num::{DocId, SCORE_MAX, Score};
use svr_steps::Steps;
use svr_tokens::{Tokens, tokens};

/// A change of one document.
#[derive(Clone, Copy)]
pub enum Change<'a> {
    /// It comes, with this score and these terms.
    Comes(Score, &'a Tokens),
    /// It has this score, at these terms.
    Scored(Score, &'a Tokens),
    /// It has the second terms in place of the first.
    Edited(&'a Tokens, &'a Tokens),
    Goes,
}

use Change::{Comes, Edited, Goes, Scored};

/// A document comes.
fn come<L: Ledger>(
    alloc: Global,
    index: &mut Index,
    id: DocId,
    score: Score,
    terms: &Tokens,
    steps: &mut Steps<L>,
) -> Result<(), Stop> {
    if id >= 1 << 63 || score > SCORE_MAX || index.entry(id).is_some() {
        return Err(Stop::Barred);
    }
    index.doc_in(alloc, id, score, terms, steps)?;
    Ok(())
}

/// A document has another score.
fn score_one<L: Ledger>(
    alloc: Global,
    index: &mut Index,
    id: DocId,
    score: Score,
    terms: &Tokens,
    steps: &mut Steps<L>,
) -> Result<(), Stop> {
    if id >= 1 << 63 || score > SCORE_MAX || index.entry(id).is_none() {
        return Err(Stop::Barred);
    }
    index.score_change(alloc, id, score, terms, steps)?;
    Ok(())
}

/// A document has other terms.
fn edit<L: Ledger>(
    alloc: Global,
    index: &mut Index,
    id: DocId,
    old: &Tokens,
    new: &Tokens,
    steps: &mut Steps<L>,
) -> Result<(), Stop> {
    if id >= 1 << 63 || index.entry(id).is_none() {
        return Err(Stop::Barred);
    }
    index.content_change(alloc, id, old, new, steps)?;
    Ok(())
}

/// Makes a change in a ledger.
fn change_in<L: Ledger>(
    alloc: Global,
    index: &mut Index,
    id: DocId,
    change: Change,
    blank: Blank,
) -> Result<(), Stop>
    requires name { blank.name ≡ L.name }
    requires parts { blank.parts ≡ L.parts }
    requires some { 0 < blank.parts }
{
    let mut steps = Steps::<L>::new(blank);
    match change {
        Comes(score, terms) => come(alloc, index, id, score, terms, &mut steps),
        Scored(score, terms) => score_one(alloc, index, id, score, terms, &mut steps),
        Edited(old, new) => edit(alloc, index, id, old, new, &mut steps),
        Goes => {
            index.doc_out(id, &mut steps);
            Ok(())
        }
    }
}

/// Makes a change, if the index is in a state for it.
pub fn make_change(
    alloc: Global,
    index: &mut Index,
    id: DocId,
    change: Change,
) -> Result<(), Stop> {
    change_in::<Brand>(alloc, index, id, change, Blank::new(1))
}

/// Places a document, if it is a moved one.
fn place_one<L: Ledger>(
    alloc: Global,
    index: &mut Index,
    id: DocId,
    terms: &Tokens,
    steps: &mut Steps<L>,
) -> Result<(), Memory> {
    if id < 1 << 63
        && let Some(entry) = index.entry(id)
        && entry.moved
    {
        index.place_moved(alloc, id, terms, steps)?;
    }
    Ok(())
}

/// Takes a merge in a ledger, and places the moved ones of documents.
fn install_in<L: Ledger>(
    alloc: Global,
    index: &mut Index,
    run: MergeRun,
    keys: ListKeys,
    documents: &[Listed],
    blank: Blank,
) -> Result<(), Stop>
    requires name { blank.name ≡ L.name }
    requires parts { blank.parts ≡ L.parts }
    requires some { 0 < blank.parts }
{
    let mut steps = Steps::<L>::new(blank);
    let (lists, method) = run.finish();
    index.install(alloc, lists, method, keys, &mut steps);
    for listed in documents {
        let terms = tokens(alloc, listed.document.text.as_str())?;
        place_one(alloc, index, listed.document.id, &terms, &mut steps)?;
    }
    Ok(())
}

/// Takes a merge with these entries, and places the moved ones of the documents.
pub fn install(
    alloc: Global,
    index: &mut Index,
    run: MergeRun,
    keys: ListKeys,
    documents: &[Listed],
) -> Result<(), Stop> {
    install_in::<Brand>(alloc, index, run, keys, documents, Blank::new(1))
}
