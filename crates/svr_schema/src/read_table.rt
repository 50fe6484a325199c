ghost use Rattle.std.specs.Prelude.{◌≡◌, ℕ, map, None, Some, IfOk, IfErr};
ghost use Rattle.std.specs.List.{list_all};
ghost use Rattle.serde_json.specs.View.{view};
ghost use Rattle.svr_schema.specs.Rules.{are_named, begin_with_id, has_parts, has_tables, have_columns, have_different_columns, have_different_names};
ghost use Rattle.svr_schema.specs.Steps.{name_fault, table_fault};
ghost use Rattle.svr_schema.specs.Tables.{column_in, has_columns, is_column, columns_differ, is_named, is_table, table_in, tables_in};
ghost use Rattle.svr_schema.specs.Lawful.{begins_with_id, is_name};

use crate::error::SchemaError;
use crate::named::{are_different, is_name};
use crate::parts::{elements_at, is_list_at, text_or_empty};
use crate::table::{Column, ColumnKind, Table};
use serde_json::Value;
use std::alloc::Global;
use svr_edge::{Items, Memory, Text};
use svr_json::has_members;

fn is_column(value: &Value) -> bool
    ensures { result ≡ is_column (view value.now) }
{
    let kind = text_or_empty(value, "type");
    has_members(value, &["name", "type"]) && (kind == "int" || kind == "text")
}

fn are_columns(values: &[Value]) -> bool
    ensures { result ≡ list_all (λ value. is_column (view value)) values.now }
{
    values.iter().all(is_column)
}

fn has_columns(value: &Value) -> bool
    ensures { result ≡ has_columns (view value.now) }
{
    is_list_at(value, "columns", 1, 8) && are_columns(elements_at(value, "columns"))
}

fn is_table(value: &Value) -> bool
    ensures { result ≡ is_table (view value.now) }
{
    has_members(value, &["columns", "name"])
}

fn are_tables(values: &[Value]) -> bool
    ensures { result ≡ list_all (λ value. is_table (view value)) values.now }
{
    values.iter().all(is_table)
}

fn has_tables(value: &Value) -> bool
    ensures { result ≡ has_tables (view value.now) }
{
    is_list_at(value, "tables", 1, 8) && are_tables(elements_at(value, "tables"))
}

fn all_have_columns(values: &[Value]) -> bool
    ensures { result ≡ list_all (λ value. has_columns (view value)) values.now }
{
    values.iter().all(has_columns)
}

fn have_columns(value: &Value) -> bool
    ensures { result ≡ have_columns (view value.now) }
{
    all_have_columns(elements_at(value, "tables"))
}

fn are_columns_named(columns: &[Column]) -> bool
    ensures { result ≡ list_all (λ column. is_name column.name) columns.now }
{
    columns.iter().all(|column| is_name(column.name.as_str()))
}

fn is_named(table: &Table) -> bool
    ensures { result ≡ is_named table.now }
{
    is_name(table.name.as_str()) && are_columns_named(table.columns.as_slice())
}

fn are_named(tables: &[Table]) -> bool
    ensures { result ≡ are_named tables.now }
{
    tables.iter().all(is_named)
}

fn columns_differ(table: &Table) -> bool
    ensures { result ≡ columns_differ table.now }
{
    are_different(table.columns.as_slice())
}

fn have_different_columns(tables: &[Table]) -> bool
    ensures { result ≡ have_different_columns tables.now }
{
    tables.iter().all(columns_differ)
}

#[tactic(auto, unfolding(crate::specs::Lawful::begins_with_id))]
fn begins_with_id(columns: &[Column]) -> bool
    ensures { result ≡ begins_with_id columns.now }
{
    match columns {
        [first, ..] => first.name.as_str() == "id" && first.kind == ColumnKind::Int,
        [] => false,
    }
}

fn begin_with_id(tables: &[Table]) -> bool
    ensures { result ≡ begin_with_id tables.now }
{
    tables
        .iter()
        .all(|table| begins_with_id(table.columns.as_slice()))
}

/// The first of the rules 4 to 7 that fails.
#[tactic(auto, unfolding(crate::specs::Steps::name_fault))]
fn name_fault(tables: &[Table]) -> Option<u8>
    ensures { result ≡ name_fault tables.now }
{
    if !are_named(tables) {
        return Some(4);
    }
    if !are_different(tables) {
        return Some(5);
    }
    if !have_different_columns(tables) {
        return Some(6);
    }
    if !begin_with_id(tables) {
        return Some(7);
    }
    None
}

fn read_column(alloc: Global, value: &Value) -> Result<Column, Memory>
    ensures { IfOk result (λ column. column ≡ column_in (view value.now)) }
{
    let name = Text::new(alloc, text_or_empty(value, "name"))?;
    let kind = if text_or_empty(value, "type") == "int" {
        ColumnKind::Int
    } else {
        ColumnKind::Text
    };
    Ok(Column { name, kind })
}

fn read_columns(alloc: Global, values: &[Value]) -> Result<Items<Column>, Memory>
    ensures { IfOk result (λ columns. columns ≡ map column_in (map view values.now)) }
{
    let mut columns = Vec::new(alloc);
    for value in values {
        columns.push(read_column(alloc, value)?)?;
    }
    Ok(Items::from_vec(columns))
}

fn read_table(alloc: Global, value: &Value) -> Result<Table, Memory>
    ensures { IfOk result (λ table. table ≡ table_in (view value.now)) }
{
    let name = Text::new(alloc, text_or_empty(value, "name"))?;
    let columns = read_columns(alloc, elements_at(value, "columns"))?;
    Ok(Table { name, columns })
}

fn table_list(alloc: Global, values: &[Value]) -> Result<Items<Table>, Memory>
    ensures { IfOk result (λ tables. tables ≡ map table_in (map view values.now)) }
{
    let mut tables = Vec::new(alloc);
    for value in values {
        tables.push(read_table(alloc, value)?)?;
    }
    Ok(Items::from_vec(tables))
}

/// The tables of a value, or the first of the rules 1 to 7 that fails.
#[tactic(auto, unfolding(crate::specs::Steps::table_fault))]
pub fn read_tables(alloc: Global, value: &Value) -> Result<Items<Table>, SchemaError>
    ensures ok { IfOk result (λ tables. (table_fault (view value.now) ≡ None) × (tables ≡ tables_in (view value.now))) }
    ensures rule { IfErr result (λ why. (n : ℕ) → why ≡ SchemaError.Rule n → table_fault (view value.now) ≡ Some n) }
{
    if !has_members(
        value,
        &["components", "divisor", "method", "tables", "text"],
    ) {
        return Err(SchemaError::Rule(1));
    }
    if !has_tables(value) {
        return Err(SchemaError::Rule(2));
    }
    if !have_columns(value) {
        return Err(SchemaError::Rule(3));
    }
    let tables = table_list(alloc, elements_at(value, "tables"))?;
    match name_fault(tables.as_slice()) {
        Some(rule) => Err(SchemaError::Rule(rule)),
        None => Ok(tables),
    }
}
