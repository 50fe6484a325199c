ghost use Rattle.std.specs.Prelude.{◌≡◌, OnOk};
ghost use Rattle.svr_gen.specs.Layout.{followed};
ghost use Rattle.svr_gen.specs.Requests.{movie_update, review_delete, visit_update};

use crate::rows::{MOVIES, REVIEWS};
use crate::words::put_title;
use crate::writer::Writer;
use svr_edge::Memory;

/// The hits of an update are below it.
const HITS: u32 = 20_000;

/// The update of visits, whose id is that of their movie.
pub(crate) fn put_visit_update(writer: &mut Writer) -> Result<(), Memory>
    ensures { OnOk result (writer.new ≡ followed writer.old visit_update) }
{
    let id = 1 + u64::from(writer.draw(MOVIES));
    writer.put(b"{\"op\":\"update\",\"table\":\"visits\",\"row\":[")?;
    writer.put_number(id)?;
    writer.put(b",")?;
    writer.put_number(id)?;
    writer.put(b",")?;
    writer.put_below(HITS)?;
    writer.put(b"]}\n")
}

/// The update of a movie to another title.
pub(crate) fn put_movie_update(writer: &mut Writer) -> Result<(), Memory>
    ensures { OnOk result (writer.new ≡ followed writer.old movie_update) }
{
    writer.put(b"{\"op\":\"update\",\"table\":\"movies\",\"row\":[")?;
    writer.put_one_to(MOVIES)?;
    writer.put(b",\"")?;
    put_title(writer)?;
    writer.put(b"\"]}\n")
}

/// The delete of a review, which may be gone already.
#[tactic(auto, using(crate::proofs::Following::parts), unfolding(crate::specs::Requests::review_delete))]
pub(crate) fn put_review_delete(writer: &mut Writer) -> Result<(), Memory>
    ensures { OnOk result (writer.new ≡ followed writer.old review_delete) }
{
    writer.put(b"{\"op\":\"delete\",\"table\":\"reviews\",\"id\":")?;
    writer.put_one_to(REVIEWS)?;
    writer.put(b"}\n")
}
