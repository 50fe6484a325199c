ghost use Rattle.std.specs.Prelude.{◌≡◌, [], ◌∷◌, map, length, option_map, None, IfOk, IfSome, OnOk};
ghost use Rattle.svr_rows.specs.Changes.{changed, refusal_of};
ghost use Rattle.svr_rows.specs.Rows.{HasId, no_rows, row_at, rows_in};
ghost use Rattle.svr_schema.specs.Lawful.{IsSchema};
ghost use Rattle.svr_view.specs.Layout.{AllCounted, IsRoomy, NotesCounted, NotesIds, Recounts, score_by};
ghost use Rattle.svr_view.specs.Score.{score_at};
ghost use Rattle.svr_view.specs.View.{AreMoves, AreTablesOf, StandsFor, score_in};

use crate::counted::{counted_ids, id_changed, recount, row_after, table_changed};
use crate::score_move::ScoreMove;
use crate::values::{add_move, score, settle, settle_all};
use std::alloc::Global;
use std::marker::Model;
use svr_edge::{Items, Memory};
use svr_groups::Groups;
use svr_idmap::IdMap;
use svr_num::{DocId, Score, Scores};
use svr_rows::{Change, Row, Tables};
use svr_schema::Schema;

/// The scores of all documents, and of each component the values of the rows that count, by document. Rows count also where
/// no document has the id that they name: it has its score as soon as it comes. Contracts see these values and scores.
#[derive(Drop)]
pub struct ScoreView {
    groups: Groups,
    scores: IdMap<Score>,
}

impl Model for ScoreView {
    ghost use Rattle.svr_view.specs.View.{Viewed};

    ghost Value = { Viewed };

    ghost view = { λ v. record { groups = v.groups; scores = v.scores } };

    ghost use Rattle.svr_view.specs.Layout.{AreScores};

    ghost invariant = { λ v. AreScores v.scores };
}

impl ScoreView {
    /// The view of a schema's tables without rows.
    pub fn new(alloc: Global, schema: &Schema) -> Result<ScoreView, Memory>
        requires { IsSchema schema.now }
        ensures { IfOk result (StandsFor schema.now (map no_rows schema.now.tables)) }
    {
        Ok(ScoreView {
            groups: Groups::new(alloc, schema.components.len() as u8)?,
            scores: IdMap::new(alloc),
        })
    }

    /// Takes note of a change which the tables accept and haven't made yet, and tells whose score it moves. It looks at the row
    /// that stands there, the row that comes, and the documents that they name. After `Memory` the view is spent.
    pub fn note(
        &mut self,
        alloc: Global,
        schema: &Schema,
        tables: &Tables,
        change: &Change,
    ) -> Result<Items<ScoreMove>, Memory>
        requires tables { AreTablesOf schema.now tables.now }
        requires stands { StandsFor schema.now tables.now self.old }
        requires accepted { refusal_of tables.now change.now ≡ None }
        ensures stands { OnOk result (StandsFor schema.now (changed tables.now change.now) self.new) }
        ensures moves { IfOk result (AreMoves (score_at schema.now tables.now) (score_at schema.now (changed tables.now change.now))) }
    {
        let table = table_changed(change);
        let id = id_changed(change);
        if table == schema.text_table {
            return self.note_document(alloc, schema, id, row_after(change));
        }
        let old = tables.row(table, id);
        self.note_counted(alloc, schema, tables, table, old, row_after(change))
    }

    /// Takes note of a document that comes, goes or is another.
    fn note_document(
        &mut self,
        alloc: Global,
        schema: &Schema,
        id: DocId,
        row: Option<&Row>,
    ) -> Result<Items<ScoreMove>, Memory>
        requires lawful { IsSchema schema.now }
        requires as_many { length self.old.groups ≡ length schema.now.components }
        requires has_id { IfSome row (λ row. HasId row.now) }
        ensures groups { self.new.groups ≡ self.old.groups }
        ensures notes { IfOk result (NotesIds self.old self.new (id ∷ [])
            (λ _. option_map (score_by schema.now self.old.groups) (option_map (λ row. row.now) row.entry))) }
    {
        let now = match row {
            Some(row) => Some(score(schema, &self.groups, row)),
            None => None,
        };
        let moved = settle(&mut self.scores, id, now)?;
        let mut moves = Vec::new(alloc);
        add_move(&mut moves, moved)?;
        Ok(Items::from_vec(moves))
    }

    /// Takes note of a row of another table that comes, goes or is another.
    fn note_counted(
        &mut self,
        alloc: Global,
        schema: &Schema,
        tables: &Tables,
        table: u8,
        old: Option<&Row>,
        new: Option<&Row>,
    ) -> Result<Items<ScoreMove>, Memory>
        requires tables { AreTablesOf schema.now tables.now }
        requires as_many { length self.old.groups ≡ length schema.now.components }
        requires few { IsRoomy schema.now.components self.old.groups }
        requires there { AllCounted schema.now.components table (option_map (λ row. row.now) old) self.old.groups }
        ensures groups { OnOk result (Recounts schema.now.components table
            (option_map (λ row. row.now) old.entry) (option_map (λ row. row.now) new.entry) self.old.groups self.new.groups) }
        ensures notes { IfOk result (NotesCounted schema.now.components table
            (option_map (λ row. row.now) old.entry) (option_map (λ row. row.now) new.entry) self.old self.new
            (λ id. option_map (score_by schema.now self.new.groups) (row_at (rows_in tables.now schema.now.text_table) id))) }
    {
        let components = schema.components.as_slice();
        recount(&mut self.groups, components, table, old, new)?;
        let ids = counted_ids(alloc, components, table, old, new)?;
        let moves = settle_all(alloc, &mut self.scores, schema, &self.groups, tables, &ids)?;
        Ok(Items::from_vec(moves))
    }
}

impl Scores for ScoreView {
    ghost score_of = { λ v id. score_in v id };

    fn score(&self, id: DocId) -> Option<Score> {
        self.scores.get(id).copied()
    }
}
