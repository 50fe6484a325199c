ghost use Rattle.std.specs.Prelude.{◌<◌, ◌≤◌};
ghost use Rattle.svr_listing.specs.Plain.{HasDivisor};

use crate::search::{Table, search};
use rand_core::utils::NextWord;
use rand_pcg::Pcg32;
use std::alloc::{AllocError, Global};
use std::test::Fail;
use svr_edge::Items;
use svr_iter::{MemPostings, ScanFault};
use svr_listing::{Group, ListingMethod, best_of_groups, visited};
use svr_method::{IdMethod, Method, ScoreMethod, ThresholdMethod};
use svr_num::Hit;
use svr_topk::Answer;

/// How many searches.
const ROUNDS: u32 = 400;

/// Groups at descending keys, each of ids of its own that ascend, and a score for most ids, at most the key.
fn random_groups(
    alloc: Global,
    rng: &mut Pcg32,
    table: &mut Vec<Hit>,
) -> Result<Vec<Group>, AllocError> {
    let mut groups = Vec::new(alloc);
    let mut key = 60 + u64::from(rng.next_word() % 8);
    for number in 0..rng.next_word() % 7 {
        let mut ids = Vec::new(alloc);
        let mut id = u64::from(rng.next_word() % 3) + 100 * u64::from(number);
        for _ in 0..rng.next_word() % 6 {
            ids.push(id)?;
            if rng.next_word() % 5 > 0 {
                let score = u64::from(rng.next_word()) % key.saturating_add(1);
                table.push(Hit { id, score })?;
            }
            id = id.saturating_add(1 + u64::from(rng.next_word() % 4));
        }
        let ids = Items::from_vec(ids);
        groups.push(Group { key, ids })?;
        key = key.saturating_sub(1 + u64::from(rng.next_word() % 8));
    }
    Ok(groups)
}

/// Whether a search answers what the plain program computes, `None` where the groups are no groups for it.
fn agrees<M: Method>(
    alloc: Global,
    k: u32,
    groups: Vec<Group>,
    table: &Table,
    method: &M,
    plain: &ListingMethod,
) -> Result<Option<bool>, ScanFault>
    requires some { 0 < k }
    requires few { k ≤ 1000 }
    requires plain { HasDivisor plain.now }
{
    if !MemPostings::are_ordered(&groups) {
        return Ok(None);
    }
    let count = visited(alloc, k, plain, table, &groups)?;
    let best = best_of_groups(alloc, k, table, &groups)?;
    match search(alloc, k, groups, table, method)? {
        Some(answer) => Ok(Some(same(&answer, count, &best))),
        None => Ok(None),
    }
}

fn same(answer: &Answer, count: usize, best: &[Hit]) -> bool {
    answer.groups == count as u64 && answer.hits.as_slice() == best
}

/// One random search, by one of three methods.
fn searches(alloc: Global, rng: &mut Pcg32) -> Result<Option<bool>, ScanFault> {
    let mut rows = Vec::new(alloc);
    let groups = match random_groups(alloc, rng, &mut rows) {
        Ok(groups) => groups,
        Err(_) => return Err(ScanFault::Memory),
    };
    let table = Table { rows };
    let k = 1 + rng.next_word() % 9;
    match rng.next_word() % 3 {
        0 => agrees(alloc, k, groups, &table, &IdMethod, &ListingMethod::Id),
        1 => agrees(
            alloc,
            k,
            groups,
            &table,
            &ScoreMethod,
            &ListingMethod::Score,
        ),
        _ => {
            let method = ThresholdMethod { num: 3, den: 2 };
            let plain = ListingMethod::Threshold { num: 3, den: 2 };
            agrees(alloc, k, groups, &table, &method, &plain)
        }
    }
}

/// 1 where a search agreed, 0 where there was none, and 1,000 where it did not.
fn weight(answer: Result<Option<bool>, ScanFault>) -> u32 {
    match answer {
        Ok(Some(true)) => 1,
        Ok(None) => 0,
        Ok(Some(false)) | Err(_) => 1000,
    }
}

#[test]
fn searches_answer_what_the_plain_program_computes(rt: HostRuntime) -> Result<(), Fail> {
    let mut rng = Pcg32::new(42, 54);
    let mut agreed: u32 = 0;
    for _ in 0..ROUNDS {
        let weight = weight(searches(rt.alloc(), &mut rng));
        agreed = agreed.saturating_add(weight);
    }
    assert!(rt; (300..=ROUNDS).contains(&agreed), "{agreed} agreed");
    Ok(())
}
