//! The rows of the loads, as lines of CSV.
ghost use Rattle.std.specs.Prelude.{◌≡◌, OnOk};
ghost use Rattle.svr_gen.specs.Layout.{followed};
ghost use Rattle.svr_gen.specs.Requests.{movie_row, review_row, visit_row};

use crate::words::put_title;
use crate::writer::Writer;
use svr_edge::Memory;

/// How many movies there are, with the ids from 1 on. Each has one row of visits.
pub(crate) const MOVIES: u32 = 2000;

/// How many reviews there are, with the ids from 1 on.
pub(crate) const REVIEWS: u32 = 3000;

/// The most stars of a review.
const STARS: u32 = 5;

/// The hits of a row are below it.
const HITS: u32 = 10_000;

/// The row of a movie: its id and its title.
#[tactic(auto, using(crate::proofs::Following::parts), unfolding(crate::specs::Requests::movie_row))]
pub(crate) fn put_movie(rows: &mut Writer, id: u64) -> Result<(), Memory>
    ensures { OnOk result (rows.new ≡ followed rows.old (movie_row id)) }
{
    rows.put_number(id)?;
    rows.put(b",")?;
    put_title(rows)?;
    rows.put(b"\n")
}

/// The row of a review: its id, its movie and its stars.
pub(crate) fn put_review(rows: &mut Writer, id: u64) -> Result<(), Memory>
    ensures { OnOk result (rows.new ≡ followed rows.old (review_row id)) }
{
    rows.put_number(id)?;
    rows.put(b",")?;
    rows.put_one_to(MOVIES)?;
    rows.put(b",")?;
    rows.put_one_to(STARS)?;
    rows.put(b"\n")
}

/// The row of visits: their id, the same as their movie, and their hits.
pub(crate) fn put_visit(rows: &mut Writer, id: u64) -> Result<(), Memory>
    ensures { OnOk result (rows.new ≡ followed rows.old (visit_row id)) }
{
    rows.put_number(id)?;
    rows.put(b",")?;
    rows.put_number(id)?;
    rows.put(b",")?;
    rows.put_below(HITS)?;
    rows.put(b"\n")
}
