ghost use Rattle.std.specs.Prelude.{◌≡◌, IfOk, OnOk};
ghost use Rattle.svr_gen.specs.Layout.{followed};
ghost use Rattle.svr_gen.specs.Requests.{merge};
ghost use Rattle.svr_gen.specs.Workload.{requests, workload_of};

use crate::loads::{load_movies, load_reviews, load_visits};
use crate::schema::put_schema;
use crate::searches::put_searches;
use crate::steps::put_steps;
use crate::writer::Writer;
use std::alloc::Global;
use svr_edge::Memory;

/// A whole merge.
#[tactic(auto, unfolding(crate::specs::Requests::merge))]
fn put_merge(writer: &mut Writer) -> Result<(), Memory>
    ensures { OnOk result (writer.new ≡ followed writer.old merge) }
{
    writer.put(b"{\"op\":\"merge\"}\n")
}

/// All requests.
fn put_requests(alloc: Global, writer: &mut Writer) -> Result<(), Memory>
    ensures { OnOk result (writer.new ≡ followed writer.old requests) }
{
    put_schema(writer)?;
    load_movies(alloc, writer)?;
    load_reviews(alloc, writer)?;
    load_visits(alloc, writer)?;
    put_merge(writer)?;
    put_steps(writer)?;
    put_merge(writer)?;
    put_searches(writer)
}

/// The workload of a number: requests as they stand in an input, each with its line feed, and behind each load the block of its rows. The
/// numbers in them are drawn from the generator of that number, in the order in which they stand.
pub fn workload(alloc: Global, number: u64) -> Result<Vec<u8>, Memory>
    ensures { IfOk result (λ text. text.items ≡ workload_of number) }
{
    let mut writer = Writer::new(alloc, number);
    put_requests(alloc, &mut writer)?;
    Ok(writer.into_text())
}
