ghost use Rattle.std.specs.Prelude.{◌≡◌, OnOk, codes};
ghost use Rattle.svr_gen.specs.Layout.{followed};
ghost use Rattle.svr_gen.specs.Parts.{numbered};
ghost use Rattle.svr_gen.specs.Requests.{load, load_of, movie_row, review_row, visit_row};

use crate::rows::{MOVIES, REVIEWS, put_movie, put_review, put_visit};
use crate::writer::Writer;
use std::alloc::Global;
use svr_edge::Memory;

/// The load of rows that were written beside the text: how many bytes they are, and then the rows.
fn put_load(writer: &mut Writer, table: &[u8], rows: Writer) -> Result<(), Memory>
    ensures { OnOk result (writer.new ≡ followed writer.old (load_of table.now rows)) }
{
    writer.put(b"{\"op\":\"load\",\"table\":\"")?;
    writer.put(table)?;
    writer.put(b"\",\"bytes\":")?;
    writer.put_number(rows.len() as u64)?;
    writer.put(b",\"header\":false}\n")?;
    writer.put_all(rows)
}

/// The load of all movies.
#[tactic(auto, using(crate::proofs::Following::numbers))]
pub(crate) fn load_movies(alloc: Global, writer: &mut Writer) -> Result<(), Memory>
    ensures { OnOk result (writer.new ≡ followed writer.old (load (codes "movies") (numbered movie_row 2000))) }
{
    let mut rows = writer.beside(alloc)?;
    for before in 0..MOVIES {
        put_movie(&mut rows, 1 + u64::from(before))?;
    }
    put_load(writer, b"movies", rows)
}

/// The load of all reviews.
#[tactic(auto, using(crate::proofs::Following::numbers))]
pub(crate) fn load_reviews(alloc: Global, writer: &mut Writer) -> Result<(), Memory>
    ensures { OnOk result (writer.new ≡ followed writer.old (load (codes "reviews") (numbered review_row 3000))) }
{
    let mut rows = writer.beside(alloc)?;
    for before in 0..REVIEWS {
        put_review(&mut rows, 1 + u64::from(before))?;
    }
    put_load(writer, b"reviews", rows)
}

/// The load of all visits.
#[tactic(auto, using(crate::proofs::Following::numbers))]
pub(crate) fn load_visits(alloc: Global, writer: &mut Writer) -> Result<(), Memory>
    ensures { OnOk result (writer.new ≡ followed writer.old (load (codes "visits") (numbered visit_row 2000))) }
{
    let mut rows = writer.beside(alloc)?;
    for before in 0..MOVIES {
        put_visit(&mut rows, 1 + u64::from(before))?;
    }
    put_load(writer, b"visits", rows)
}
