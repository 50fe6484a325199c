//! How lists follow a change of a row: first the scores that it moves, then the text of its own row.
ghost use Rattle.std.specs.Prelude.{◌≡◌, ◌<◌, ◌≤◌, ◌^◌, ℕ, true, IfSome, None, OnOk, Option, option_map, slice_get};
ghost use Rattle.std.specs.Option.{is_some};
ghost use Rattle.svr_idmap.specs.Ids.{value_at};
ghost use Rattle.svr_lists.specs.Lists.{FollowsDocument, IsAtScores, ListsValue, SetsScore, last_in};
ghost use Rattle.svr_rows.specs.Changes.{changed, refusal_of};
ghost use Rattle.svr_rows.specs.Rows.{HasId, id_of, row_at, rows_in};
ghost use Rattle.svr_view.specs.Layout.{row_after};
ghost use Rattle.svr_view.specs.Score.{score_at};
ghost use Rattle.svr_view.specs.View.{AreMoves, AreTablesOf};
ghost use Rattle.svr_catalog.specs.Catalog.{text_in};
ghost use Rattle.svr_catalog.specs.Layout.{Carries, IsMidway, MovesBy, documents_from, edited_in, row_or, text_or_none};

use std::alloc::Global;
use std::sync::ledger::Ledger;
use svr_edge::Memory;
use svr_lists::Lists;
use svr_num::{DocId, SCORE_MAX};
use svr_rows::{Change, Row, Tables};
use svr_schema::{Cell, Schema};
use svr_steps::Steps;
use svr_view::ScoreMove;

/// The text in a cell of a row, empty where there is none.
pub(crate) fn text_at(row: &Row, column: u8) -> &str
    ensures { result.now ≡ text_in (slice_get row.now.cells column) }
{
    match row.cells.as_slice().get(column as usize) {
        Some(Cell::Text(text)) => text.as_str(),
        _ => "",
    }
}

/// The id of a row, which an `i64` holds.
pub(crate) fn id_in(row: &Row) -> DocId
    requires { HasId row.now }
    ensures value { result ≡ id_of row.now }
    ensures within { result < 2 ^ 63 }
{
    match row.cells.as_slice() {
        [Cell::Int(id), ..] => *id as DocId,
        _ => unreachable!(),
    }
}

/// The row of a document as it was, or where it comes as it is.
fn row_for<'a>(
    schema: &Schema,
    tables: &'a Tables,
    change: &'a Change,
    id: DocId,
) -> Option<&'a Row>
    requires tables { AreTablesOf schema.now tables.now }
    requires accepted { refusal_of tables.now change.now ≡ None }
    ensures row { option_map (λ row. row.now) result ≡ row_or (row_at (rows_in tables.now schema.now.text_table) id) (row_after change.now) }
    ensures has_id { IfSome result (λ row. HasId row.now) }
{
    match tables.row(schema.text_table, id) {
        Some(row) => Some(row),
        None => row_in(change),
    }
}

/// The row that comes with a change, if one does.
fn row_in(change: &Change) -> Option<&Row>
    ensures { option_map (λ row. row.now) result ≡ row_after change.now }
{
    match change {
        Change::Insert { row, .. } | Change::Update { row, .. } => Some(row),
        Change::Delete { .. } => None,
    }
}

/// The row that a change puts in the place of a document's row.
fn edited_row<'a>(schema: &Schema, change: &'a Change) -> Option<&'a Row>
    ensures { option_map (λ row. row.now) result ≡ edited_in schema.now change.now }
{
    match change {
        Change::Update { table, row } => {
            if *table == schema.text_table {
                Some(row)
            } else {
                None
            }
        }
        Change::Insert { .. } | Change::Delete { .. } => None,
    }
}

/// Lets lists follow the move of a document that has, or comes with, this row.
fn follow_move<L: Ledger>(
    alloc: Global,
    lists: &mut Lists,
    schema: &Schema,
    to: &ScoreMove,
    row: Option<&Row>,
    steps: &mut Steps<L>,
) -> Result<(), Memory>
    requires row { IfSome row (λ row. HasId row.now) }
    requires id { IfSome row (λ row. id_of row.now ≡ to.now.id) }
    requires there { IfSome to.now.new (λ _. is_some row ≡ true) }
    requires score { IfSome to.now.new (λ score. score ≤ SCORE_MAX) }
    requires listed { is_some (value_at lists.old.index.entries to.now.id) ≡ is_some to.now.old }
    ensures follows { OnOk result (FollowsDocument lists.old lists.new to.now.id
        (MovesBy to.now.old to.now.new (text_or_none schema.now (option_map (λ row. row.now) row.entry)))) }
    ensures at_scores { (old new : ℕ → Option ℕ) → IsAtScores old lists.old → SetsScore old new to.now.id to.now.new
        → OnOk result (IsAtScores new lists.new) }
    ensures last { OnOk result (last_in lists.new ≡ last_in lists.old) }
{
    let Some(score) = to.new else {
        lists.goes(to.id, steps);
        return Ok(());
    };
    let Some(row) = row else {
        return Ok(());
    };
    let text = text_at(row, schema.text_column);
    match to.old {
        Some(_) => lists.scored(alloc, id_in(row), score, text, steps),
        None => lists.comes(alloc, id_in(row), score, text, steps),
    }
}

/// Lets lists follow the moves of a change, one after the other: each document that stays has its new score then, and its old text.
fn follow_moves<L: Ledger>(
    alloc: Global,
    lists: &mut Lists,
    schema: &Schema,
    tables: &Tables,
    change: &Change,
    moves: &[ScoreMove],
    steps: &mut Steps<L>,
) -> Result<(), Memory>
    requires tables { AreTablesOf schema.now tables.now }
    requires accepted { refusal_of tables.now change.now ≡ None }
    requires moves { AreMoves (score_at schema.now tables.now) (score_at schema.now (changed tables.now change.now)) moves.now }
    requires at_scores { IsAtScores (score_at schema.now tables.now) lists.old }
    ensures midway { OnOk result (IsMidway (documents_from schema.now tables.now) (documents_from schema.now (changed tables.now change.now))
        (λ _. true) lists.old lists.new) }
    ensures last { OnOk result (last_in lists.new ≡ last_in lists.old) }
{
    for to in moves {
        let row = row_for(schema, tables, change, to.id);
        follow_move(alloc, lists, schema, to, row, steps)?;
    }
    Ok(())
}

/// Lets lists follow the text of the row that a change changes, where its document stays.
fn follow_text<L: Ledger>(
    alloc: Global,
    lists: &mut Lists,
    schema: &Schema,
    tables: &Tables,
    change: &Change,
    steps: &mut Steps<L>,
) -> Result<(), Memory>
    requires tables { AreTablesOf schema.now tables.now }
    requires accepted { refusal_of tables.now change.now ≡ None }
    requires at_scores { IsAtScores (score_at schema.now (changed tables.now change.now)) lists.old }
    ensures carries { (old : ListsValue) → IsMidway (documents_from schema.now tables.now)
        (documents_from schema.now (changed tables.now change.now)) (λ _. true) old lists.old
        → OnOk result (Carries (documents_from schema.now tables.now) (documents_from schema.now (changed tables.now change.now)) old lists.new) }
    ensures at_scores { OnOk result (IsAtScores (score_at schema.now (changed tables.now change.now)) lists.new) }
    ensures last { OnOk result (last_in lists.new ≡ last_in lists.old) }
{
    let Some(row) = edited_row(schema, change) else {
        return Ok(());
    };
    let id = id_in(row);
    let Some(before) = tables.row(schema.text_table, id) else {
        return Ok(());
    };
    let old = text_at(before, schema.text_column);
    let new = text_at(row, schema.text_column);
    lists.edited(alloc, id, old, new, steps)
}

/// Lets lists follow a change which the tables accept and haven't made yet, by the moves that it makes.
pub fn follow<L: Ledger>(
    alloc: Global,
    lists: &mut Lists,
    schema: &Schema,
    tables: &Tables,
    change: &Change,
    moves: &[ScoreMove],
    steps: &mut Steps<L>,
) -> Result<(), Memory>
    requires tables { AreTablesOf schema.now tables.now }
    requires accepted { refusal_of tables.now change.now ≡ None }
    requires moves { AreMoves (score_at schema.now tables.now) (score_at schema.now (changed tables.now change.now)) moves.now }
    requires at_scores { IsAtScores (score_at schema.now tables.now) lists.old }
    ensures carries { OnOk result (Carries (documents_from schema.now tables.now) (documents_from schema.now (changed tables.now change.now))
        lists.old lists.new) }
    ensures at_scores { OnOk result (IsAtScores (score_at schema.now (changed tables.now change.now)) lists.new) }
    ensures last { OnOk result (last_in lists.new ≡ last_in lists.old) }
{
    follow_moves(alloc, lists, schema, tables, change, moves, steps)?;
    follow_text(alloc, lists, schema, tables, change, steps)?;
    Ok(())
}
