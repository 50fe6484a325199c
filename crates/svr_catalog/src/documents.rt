//! The documents that the rows of a catalog make, as the steps of a merge have to know them.
ghost use Rattle.std.specs.Prelude.{◌≡◌, ◌<◌, ◌≤◌, ◌^◌, All, IfOk, IsSome, Some, map};
ghost use Rattle.svr_listing.specs.Listing.{hit_of};
ghost use Rattle.svr_lists.specs.Publish.{Shows};
ghost use Rattle.svr_rows.specs.Rows.{HasId, id_of};
ghost use Rattle.svr_view.specs.View.{AreTablesOf, StandsFor, score_in};
ghost use Rattle.svr_catalog.specs.Catalog.{text_of};
ghost use Rattle.svr_catalog.specs.Layout.{documents_from, hit_shown};

use crate::follow::{id_in, text_at};
use std::alloc::Global;
use svr_edge::Memory;
use svr_lists::DocumentText;
use svr_num::{Hit, SCORE_MAX, Scores};
use svr_rows::{Row, Tables};
use svr_schema::Schema;
use svr_view::ScoreView;

/// The document of a row, whose score is kept.
fn document_text<'a>(schema: &Schema, scores: &ScoreView, row: &'a Row) -> DocumentText<'a>
    requires has_id { HasId row.now }
    requires scored { IsSome (score_in scores.now (id_of row.now)) }
    ensures id { result.id ≡ id_of row.now }
    ensures score { Some result.score ≡ score_in scores.now (id_of row.now) }
    ensures text { result.text.now ≡ text_of schema.now row.now }
    ensures within { result.id < 2 ^ 63 }
    ensures low { result.score ≤ SCORE_MAX }
{
    let id = id_in(row);
    let score = scores.score(id).unwrap();
    DocumentText {
        id,
        score,
        text: text_at(row, schema.text_column),
    }
}

/// All documents by ascending id.
pub(crate) fn documents<'a>(
    alloc: Global,
    schema: &Schema,
    tables: &'a Tables,
    scores: &ScoreView,
) -> Result<Vec<DocumentText<'a>>, Memory>
    requires tables { AreTablesOf schema.now tables.now }
    requires scores { StandsFor schema.now tables.now scores.now }
    ensures shows { IfOk result (λ documents. Shows documents.items (documents_from schema.now tables.now)) }
    ensures ids { IfOk result (λ documents. All (λ d. d.id < 2 ^ 63) documents.items) }
    ensures scores { IfOk result (λ documents. All (λ d. d.score ≤ SCORE_MAX) documents.items) }
{
    let mut documents = Vec::new(alloc);
    let mut after = None;
    while let Some(row) = tables.next_row(schema.text_table, after) {
        let document = document_text(schema, scores, row);
        after = Some(document.id);
        documents.push(document)?;
    }
    Ok(documents)
}

/// Id and score of each of these documents.
fn hits_of(alloc: Global, documents: &[DocumentText]) -> Result<Vec<Hit>, Memory>
    ensures { IfOk result (λ hits. hits.items ≡ map hit_shown documents.now) }
{
    let hits = documents
        .iter()
        .map(|document| Hit {
            id: document.id,
            score: document.score,
        })
        .collect(alloc)?;
    Ok(hits)
}

/// Id and score of each document, by ascending id.
pub(crate) fn hits(
    alloc: Global,
    schema: &Schema,
    tables: &Tables,
    scores: &ScoreView,
) -> Result<Vec<Hit>, Memory>
    requires tables { AreTablesOf schema.now tables.now }
    requires scores { StandsFor schema.now tables.now scores.now }
    ensures are { IfOk result (λ hits. hits.items ≡ map hit_of (documents_from schema.now tables.now)) }
    ensures ids { IfOk result (λ hits. All (λ d. d.id < 2 ^ 63) hits.items) }
    ensures scores { IfOk result (λ hits. All (λ d. d.score ≤ SCORE_MAX) hits.items) }
{
    let documents = documents(alloc, schema, tables, scores)?;
    let hits = hits_of(alloc, &documents)?;
    Ok(hits)
}
