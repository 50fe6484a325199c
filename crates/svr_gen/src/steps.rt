ghost use Rattle.std.specs.Prelude.{◌≡◌, ◌<◌, ◌-◌, ◌^◌, OnOk};
ghost use Rattle.svr_gen.specs.Layout.{followed};
ghost use Rattle.svr_gen.specs.Requests.{merge_step};
ghost use Rattle.svr_gen.specs.Workload.{chosen, merges_with, steps};

use crate::changes::{put_movie_update, put_review_delete, put_visit_update};
use crate::searches::put_search;
use crate::writer::Writer;
use svr_edge::Memory;

/// How many steps there are.
const STEPS: u32 = 600;

/// How many choices a step has.
const CHOICES: u32 = 10;

/// The choice of a step of a merge.
const MERGE_STEP: u32 = 9;

/// The request for a step of a merge behind so many others: a begin, two slices and a publish, and so on.
#[tactic(auto, unfolding(crate::specs::Requests::merge_step))]
fn merge_step(before: u32) -> &'static [u8]
    ensures { result.now ≡ merge_step before }
{
    match before % 4 {
        0 => b"{\"op\":\"merge-begin\"}\n",
        3 => b"{\"op\":\"merge-publish\"}\n",
        _ => b"{\"op\":\"merge-slice\",\"terms\":200}\n",
    }
}

/// The request of a step by its choice, behind so many steps of merges.
#[tactic(auto, unfolding(crate::specs::Workload::chosen))]
fn put_chosen(writer: &mut Writer, choice: u32, merges: u32) -> Result<(), Memory>
    ensures { OnOk result (writer.new ≡ followed writer.old (chosen choice merges)) }
{
    match choice {
        0..=3 => put_visit_update(writer),
        4 => put_movie_update(writer),
        5 => put_review_delete(writer),
        MERGE_STEP => writer.put(merge_step(merges)),
        _ => put_search(writer),
    }
}

/// How many steps of merges there are with that of the choice.
#[tactic(auto, unfolding(crate::specs::Workload::merges_with))]
fn merges_with(choice: u32, merges: u32) -> u32
    requires { merges < 2 ^ 32 - 1 }
    ensures { result ≡ merges_with choice merges }
{
    if choice == MERGE_STEP {
        merges + 1
    } else {
        merges
    }
}

/// All steps.
pub(crate) fn put_steps(writer: &mut Writer) -> Result<(), Memory>
    ensures { OnOk result (writer.new ≡ followed writer.old (steps 600 0)) }
{
    let mut merges = 0;
    for _ in 0..STEPS {
        let choice = writer.draw(CHOICES);
        put_chosen(writer, choice, merges)?;
        merges = merges_with(choice, merges);
    }
    Ok(())
}
