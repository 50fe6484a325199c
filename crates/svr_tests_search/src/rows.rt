ghost use Rattle.std.specs.Prelude.{◌<◌, ◌≤◌};

use crate::search::{Table, search};
use std::alloc::{AllocError, Global};
use std::test::Fail;
use svr_edge::Items;
use svr_iter::ScanFault;
use svr_listing::Group;
use svr_method::{ScoreMethod, ThresholdMethod};
use svr_num::Hit;
use svr_topk::Answer;

/// The groups of the first four rows: document 9 at the key 15, document 3 at the key 10.
const TWO: &[(u64, &[u64])] = &[(15, &[9]), (10, &[3])];

/// A group without ids counts, and a document that has no score is no hit.
const GAPS: &[(u64, &[u64])] = &[(20, &[]), (15, &[2, 9]), (10, &[3]), (4, &[])];

/// Whether the keys are scores, or thresholds of 3/2; groups; the scores of documents 3 and 9; k; the answer.
const ROWS: &[(bool, &[(u64, &[u64])], u64, u64, u32, &str)] = &[
    (false, TWO, 15, 15, 1, "3:15 in 2"),
    (false, TWO, 14, 15, 1, "9:15 in 2"),
    (true, TWO, 10, 15, 1, "9:15 in 1"),
    (true, TWO, 10, 15, 3, "9:15 3:10 in 2"),
    (true, TWO, 10, 15, 2, "9:15 3:10 in 2"),
    (true, TWO, 10, 10, 1, "3:10 in 2"),
    (true, GAPS, 10, 15, 1, "9:15 in 2"),
    (true, GAPS, 10, 15, 2, "9:15 3:10 in 3"),
    (true, GAPS, 10, 15, 3, "9:15 3:10 in 4"),
    (true, &[], 10, 15, 3, "in 0"),
];

/// The groups of these rows.
pub fn groups_of(alloc: Global, rows: &[(u64, &[u64])]) -> Result<Vec<Group>, AllocError> {
    let mut groups = Vec::new(alloc);
    for (key, row) in rows {
        let mut ids = Vec::new(alloc);
        ids.extend_from_slice(row)?;
        let ids = Items::from_vec(ids);
        groups.push(Group { key: *key, ids })?;
    }
    Ok(groups)
}

fn table_of(alloc: Global, third: u64, ninth: u64) -> Result<Table, AllocError> {
    let mut rows = Vec::new(alloc);
    rows.push(Hit {
        id: 3,
        score: third,
    })?;
    rows.push(Hit {
        id: 9,
        score: ninth,
    })?;
    Ok(Table { rows })
}

/// An answer as a text.
pub fn text_of(alloc: Global, answer: &Answer) -> Result<String, AllocError> {
    let mut text = String::new(alloc);
    for hit in answer.hits.as_slice() {
        text.push_str(&format!(in alloc; "{}:{} ", hit.id, hit.score)?)?;
    }
    text.push_str(&format!(in alloc; "in {}", answer.groups)?)?;
    Ok(text)
}

/// What a search answers, as a text.
fn searched(
    alloc: Global,
    by_score: bool,
    rows: &[(u64, &[u64])],
    table: &Table,
    k: u32,
) -> Result<String, ScanFault>
    requires some { 0 < k }
    requires few { k ≤ 1000 }
{
    let groups = match groups_of(alloc, rows) {
        Ok(groups) => groups,
        Err(_) => return Err(ScanFault::Memory),
    };
    let found = if by_score {
        search(alloc, k, groups, table, &ScoreMethod)?
    } else {
        search(alloc, k, groups, table, &ThresholdMethod { num: 3, den: 2 })?
    };
    let text = match found {
        Some(answer) => text_of(alloc, &answer),
        None => format!(in alloc; "not in order"),
    };
    match text {
        Ok(text) => Ok(text),
        Err(_) => Err(ScanFault::Memory),
    }
}

#[test]
fn searches_answer_the_rows(rt: HostRuntime) -> Result<(), Fail> {
    let alloc = rt.alloc();
    for (by_score, rows, third, ninth, k, want) in ROWS {
        let table = table_of(alloc, *third, *ninth)?;
        let k = (*k).clamp(1, 1000);
        let got = searched(alloc, *by_score, rows, &table, k);
        assert!(rt; got.is_ok_and(|text| text.as_str() == *want), "want {want}");
    }
    Ok(())
}
