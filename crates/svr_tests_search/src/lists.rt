use crate::rows::groups_of;
use crate::search::text_of_groups;
use std::alloc::Global;
use std::test::Fail;
use svr_iter::{MemPostings, ScanFault};
use svr_match::{AllOf, AnyOf};

/// Groups, by key and ids.
type Rows = &'static [(u64, &'static [u64])];

const FIRST: Rows = &[(15, &[2, 9]), (10, &[3, 4, 7])];

const SECOND: Rows = &[(15, &[9]), (10, &[3, 7, 8]), (5, &[1])];

const THIRD: Rows = &[(10, &[7, 8]), (5, &[1, 2])];

/// Lists; the groups of the ids that stand in all of them, and in any.
const ROWS: &[(&[Rows], &str, &str)] = &[
    (&[&[]], "", ""),
    (&[FIRST], "15 2 9; 10 3 4 7; ", "15 2 9; 10 3 4 7; "),
    (
        &[FIRST, SECOND],
        "15 9; 10 3 7; 5; ",
        "15 2 9; 10 3 4 7 8; 5 1; ",
    ),
    (
        &[FIRST, SECOND, THIRD],
        "15; 10 7; 5; ",
        "15 2 9; 10 3 4 7 8; 5 1 2; ",
    ),
    (
        &[SECOND, THIRD],
        "15; 10 7 8; 5 1; ",
        "15 9; 10 3 7 8; 5 1 2; ",
    ),
    (&[FIRST, &[]], "15; 10; ", "15 2 9; 10 3 4 7; "),
];

/// The lists in memory.
fn lists_of(alloc: Global, lists: &[Rows]) -> Result<Vec<MemPostings>, ScanFault> {
    let mut postings = Vec::new(alloc);
    for rows in lists {
        let groups = match groups_of(alloc, rows) {
            Ok(groups) => groups,
            Err(_) => return Err(ScanFault::Memory),
        };
        if MemPostings::are_ordered(&groups) && postings.push(MemPostings::new(groups)).is_err() {
            return Err(ScanFault::Memory);
        }
    }
    Ok(postings)
}

fn all_of(alloc: Global, lists: &[Rows]) -> Result<String, ScanFault> {
    let mut others = lists_of(alloc, lists)?;
    match others.pop() {
        Some(first) => text_of_groups(alloc, &mut AllOf::new(first, others)),
        None => Err(ScanFault::Memory),
    }
}

fn any_of(alloc: Global, lists: &[Rows]) -> Result<String, ScanFault> {
    text_of_groups(alloc, &mut AnyOf::new(alloc, lists_of(alloc, lists)?))
}

/// Those that stand in the last list and in any of all: these are the last list's, at the keys of all.
fn last_in_any(alloc: Global, lists: &[Rows]) -> Result<String, ScanFault> {
    let any = AnyOf::new(alloc, lists_of(alloc, lists)?);
    let mut others = Vec::new(alloc);
    if others.push(any).is_err() {
        return Err(ScanFault::Memory);
    }
    let mut last = lists_of(alloc, lists)?;
    let mut kept = Vec::new(alloc);
    match last.pop() {
        Some(list) => {
            if kept.push(list).is_err() {
                return Err(ScanFault::Memory);
            }
        }
        None => return Err(ScanFault::Memory),
    }
    text_of_groups(alloc, &mut AllOf::new(AnyOf::new(alloc, kept), others))
}

#[test]
fn lists_are_put_together(rt: HostRuntime) -> Result<(), Fail> {
    let alloc = rt.alloc();
    for (lists, all, any) in ROWS {
        let both = all_of(alloc, lists).is_ok_and(|text| text.as_str() == *all)
            && any_of(alloc, lists).is_ok_and(|text| text.as_str() == *any);
        assert!(rt; both, "want {all} and {any}");
    }
    let kept = last_in_any(alloc, &[FIRST, THIRD]);
    assert!(rt; kept.is_ok_and(|text| text.as_str() == "15; 10 7 8; 5 1 2; "));
    Ok(())
}
