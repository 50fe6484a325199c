ghost use Rattle.std.specs.Prelude.{◌≡◌, ◌≤◌, ℕ, map, length, None, Some, option_map, IfOk, IfErr};
ghost use Rattle.std.specs.List.{filter_map, list_all};
ghost use Rattle.serde_json.specs.View.{view};
ghost use Rattle.svr_schema.specs.Components.{aggregated, cell_of, component_in, components_in, filter_in, filter_of, filtered_members_of, int_column, is_component, is_filtered, is_placed, is_weighted, kind_in, members_of, other_table, over_in, own_in, places_in, stand_in, weight_at};
ghost use Rattle.svr_json.specs.Parts.{has_members};
ghost use Rattle.svr_schema.specs.Rules.{are_filtered, are_placed, are_weighted, has_components};
ghost use Rattle.svr_schema.specs.Steps.{AreFew, cell_view, component_fault, filter_view, over_view};

use crate::component::{Cell, Component, Filter};
use crate::error::SchemaError;
use crate::lookup::{column_at, column_of_kind, columns_of, table_at};
use crate::parts::{elements_at, is_list_at, text_or_empty, whole_within};
use crate::table::{Column, ColumnKind, Table};
use serde_json::Value;
use std::alloc::Global;
use svr_edge::{Items, Memory, Text};
use svr_json::has_members;
use svr_num::Aggregate;

/// The greatest weight; the least is its negative.
const WEIGHT: i64 = 1_000_000_000;

/// What a component is made of.
#[derive(Clone, Copy)]
enum Kind {
    Own,
    Over(Aggregate),
}

/// Where a component over another table has its numbers.
#[derive(Clone, Copy)]
struct Places {
    table: u8,
    by: u8,
    column: u8,
}

/// A cell that isn't owned yet.
#[derive(Clone, Copy)]
enum CellDraft<'a> {
    Int(i64),
    Text(&'a str),
}

/// A filter that isn't owned yet.
#[derive(Clone, Copy)]
struct FilterDraft<'a> {
    column: u8,
    equals: CellDraft<'a>,
}

fn read_kind(value: &Value) -> Option<Kind>
    ensures { result ≡ kind_in (view value.now) }
{
    match text_or_empty(value, "kind") {
        "own" => Some(Kind::Own),
        "sum" => Some(Kind::Over(Aggregate::Sum)),
        "count" => Some(Kind::Over(Aggregate::Count)),
        "min" => Some(Kind::Over(Aggregate::Min)),
        "max" => Some(Kind::Over(Aggregate::Max)),
        "avg" => Some(Kind::Over(Aggregate::Avg)),
        _ => None,
    }
}

/// Whether the value has the members of a component over another table, without a filter.
fn has_over_members(value: &Value, how: Aggregate) -> bool
    ensures { result ≡ has_members (members_of how) (view value.now) }
{
    match how {
        Aggregate::Sum => has_members(value, &["by", "column", "kind", "table", "weight"]),
        Aggregate::Count => has_members(value, &["by", "kind", "table", "weight"]),
        Aggregate::Min | Aggregate::Max | Aggregate::Avg => {
            has_members(value, &["by", "column", "empty", "kind", "table", "weight"])
        }
    }
}

/// The same, with a filter.
fn has_filtered_members(value: &Value, how: Aggregate) -> bool
    ensures { result ≡ has_members (filtered_members_of how) (view value.now) }
{
    match how {
        Aggregate::Sum => has_members(
            value,
            &["by", "column", "filter", "kind", "table", "weight"],
        ),
        Aggregate::Count => has_members(value, &["by", "filter", "kind", "table", "weight"]),
        Aggregate::Min | Aggregate::Max | Aggregate::Avg => {
            has_members(
                value,
                &["by", "column", "empty", "filter", "kind", "table", "weight"],
            )
        }
    }
}

fn is_component(value: &Value) -> bool
    ensures { result ≡ is_component (view value.now) }
{
    match read_kind(value) {
        Some(Kind::Own) => has_members(value, &["column", "kind", "weight"]),
        Some(Kind::Over(how)) => has_over_members(value, how) || has_filtered_members(value, how),
        None => false,
    }
}

fn are_components(values: &[Value]) -> bool
    ensures { result ≡ list_all (λ value. is_component (view value)) values.now }
{
    values.iter().all(is_component)
}

fn has_components(value: &Value) -> bool
    ensures { result ≡ has_components (view value.now) }
{
    is_list_at(value, "components", 0, 8) && are_components(elements_at(value, "components"))
}

fn int_column(tables: &[Table], table: u8, name: &str, value: &Value) -> Option<u8>
    requires { AreFew tables.now }
    ensures { result ≡ int_column tables.now table name.now (view value.now) }
{
    column_of_kind(
        columns_of(tables, table),
        ColumnKind::Int,
        text_or_empty(value, name),
    )
}

fn other_table(tables: &[Table], text_table: u8, value: &Value) -> Option<u8>
    requires { AreFew tables.now }
    ensures { result ≡ other_table tables.now text_table (view value.now) }
{
    let table = table_at(tables, text_or_empty(value, "table"))?;
    if table == text_table {
        None
    } else {
        Some(table)
    }
}

fn aggregated(tables: &[Table], table: u8, how: Aggregate, value: &Value) -> Option<u8>
    requires { AreFew tables.now }
    ensures { result ≡ aggregated tables.now table how (view value.now) }
{
    match how {
        Aggregate::Count => Some(0),
        Aggregate::Sum | Aggregate::Min | Aggregate::Max | Aggregate::Avg => {
            int_column(tables, table, "column", value)
        }
    }
}

fn read_places(tables: &[Table], text_table: u8, how: Aggregate, value: &Value) -> Option<Places>
    requires { AreFew tables.now }
    ensures { result ≡ places_in tables.now text_table how (view value.now) }
{
    let table = other_table(tables, text_table, value)?;
    let by = int_column(tables, table, "by", value)?;
    let column = aggregated(tables, table, how, value)?;
    Some(Places { table, by, column })
}

fn is_placed(tables: &[Table], text_table: u8, value: &Value) -> bool
    requires { AreFew tables.now }
    ensures { result ≡ is_placed tables.now text_table (view value.now) }
{
    match read_kind(value) {
        Some(Kind::Own) => int_column(tables, text_table, "column", value).is_some(),
        Some(Kind::Over(how)) => read_places(tables, text_table, how, value).is_some(),
        None => false,
    }
}

fn read_weight(value: &Value, name: &str) -> Option<i64>
    ensures { result ≡ weight_at name.now (view value.now) }
{
    whole_within(value, name, -WEIGHT, WEIGHT)
}

fn stand_in(how: Aggregate, value: &Value) -> Option<i64>
    ensures { result ≡ stand_in how (view value.now) }
{
    match how {
        Aggregate::Sum | Aggregate::Count => Some(0),
        Aggregate::Min | Aggregate::Max | Aggregate::Avg => read_weight(value, "empty"),
    }
}

fn is_weighted(value: &Value) -> bool
    ensures { result ≡ is_weighted (view value.now) }
{
    match read_kind(value) {
        Some(Kind::Own) => read_weight(value, "weight").is_some(),
        Some(Kind::Over(how)) => read_weight(value, "weight").is_some()
            && stand_in(how, value).is_some(),
        None => false,
    }
}

fn read_cell(kind: ColumnKind, value: &Value) -> Option<CellDraft<'_>>
    ensures { option_map cell_view result ≡ cell_of kind (view value.now) }
{
    match kind {
        ColumnKind::Int => Some(CellDraft::Int(value.as_i64()?)),
        ColumnKind::Text => Some(CellDraft::Text(value.as_str()?)),
    }
}

fn read_filter<'a>(columns: &[Column], value: &'a Value) -> Option<FilterDraft<'a>>
    requires { length columns.now ≤ 8 }
    ensures { option_map filter_view result ≡ filter_of columns.now (view value.now) }
{
    if !has_members(value, &["column", "equals"]) {
        return None;
    }
    let at = column_at(columns, text_or_empty(value, "column"))?;
    let kind = columns.get(at as usize)?.kind;
    let equals = read_cell(kind, value.get("equals")?)?;
    Some(FilterDraft { column: at, equals })
}

/// The filter of a component, if there is one; `None` where what stands there is none.
fn filter_at<'a>(tables: &[Table], table: u8, value: &'a Value) -> Option<Option<FilterDraft<'a>>>
    requires { AreFew tables.now }
    ensures { option_map (option_map filter_view) result ≡ filter_in tables.now table (view value.now) }
{
    match value.get("filter") {
        Some(member) => Some(Some(read_filter(columns_of(tables, table), member)?)),
        None => Some(None),
    }
}

fn is_filtered(tables: &[Table], text_table: u8, value: &Value) -> bool
    requires { AreFew tables.now }
    ensures { result ≡ is_filtered tables.now text_table (view value.now) }
{
    match read_kind(value) {
        Some(Kind::Own) => true,
        Some(Kind::Over(_)) => match other_table(tables, text_table, value) {
            Some(table) => filter_at(tables, table, value).is_some(),
            None => false,
        },
        None => false,
    }
}

fn own_filter(alloc: Global, draft: FilterDraft<'_>) -> Result<Filter, Memory>
    ensures { IfOk result (λ filter. filter ≡ filter_view draft.entry) }
{
    let equals = match draft.equals {
        CellDraft::Int(n) => Cell::Int(n),
        CellDraft::Text(text) => Cell::Text(Text::new(alloc, text)?),
    };
    Ok(Filter {
        column: draft.column,
        equals,
    })
}

fn read_own(tables: &[Table], text_table: u8, value: &Value) -> Option<Component>
    requires { AreFew tables.now }
    ensures { result ≡ own_in tables.now text_table (view value.now) }
{
    let column = int_column(tables, text_table, "column", value)?;
    let weight = read_weight(value, "weight")?;
    Some(Component::Own { column, weight })
}

/// A component over another table that isn't owned yet.
#[derive(Clone, Copy)]
struct OverDraft<'a> {
    how: Aggregate,
    places: Places,
    weight: i64,
    empty: i64,
    filter: Option<FilterDraft<'a>>,
}

fn read_over<'a>(
    tables: &[Table],
    text_table: u8,
    how: Aggregate,
    value: &'a Value,
) -> Option<OverDraft<'a>>
    requires { AreFew tables.now }
    ensures { option_map over_view result ≡ over_in tables.now text_table how (view value.now) }
{
    let places = read_places(tables, text_table, how, value)?;
    let weight = read_weight(value, "weight")?;
    let empty = stand_in(how, value)?;
    let filter = filter_at(tables, places.table, value)?;
    Some(OverDraft {
        how,
        places,
        weight,
        empty,
        filter,
    })
}

fn own_over(alloc: Global, draft: OverDraft<'_>) -> Result<Component, Memory>
    ensures { IfOk result (λ component. component ≡ over_view draft.entry) }
{
    let filter = match draft.filter {
        Some(filter) => Some(own_filter(alloc, filter)?),
        None => None,
    };
    Ok(Component::Over {
        how: draft.how,
        table: draft.places.table,
        by: draft.places.by,
        column: draft.places.column,
        weight: draft.weight,
        empty: draft.empty,
        filter,
    })
}

/// The component of a value, if it is one.
fn read_component(
    alloc: Global,
    tables: &[Table],
    text_table: u8,
    value: &Value,
) -> Result<Option<Component>, Memory>
    requires { AreFew tables.now }
    ensures { IfOk result (λ found. found ≡ component_in tables.now text_table (view value.now)) }
{
    match read_kind(value) {
        Some(Kind::Own) => Ok(read_own(tables, text_table, value)),
        Some(Kind::Over(how)) => match read_over(tables, text_table, how, value) {
            Some(draft) => Ok(Some(own_over(alloc, draft)?)),
            None => Ok(None),
        },
        None => Ok(None),
    }
}

fn component_list(
    alloc: Global,
    tables: &[Table],
    text_table: u8,
    values: &[Value],
) -> Result<Items<Component>, Memory>
    requires { AreFew tables.now }
    ensures { IfOk result (λ found. found ≡ filter_map (component_in tables.now text_table) (map view values.now)) }
{
    let mut found = Vec::new(alloc);
    for value in values {
        if let Some(component) = read_component(alloc, tables, text_table, value)? {
            found.push(component)?;
        }
    }
    Ok(Items::from_vec(found))
}

fn all_placed(tables: &[Table], text_table: u8, values: &[Value]) -> bool
    requires { AreFew tables.now }
    ensures { result ≡ list_all (λ value. is_placed tables.now text_table (view value)) values.now }
{
    values
        .iter()
        .all(|value| is_placed(tables, text_table, value))
}

fn all_weighted(values: &[Value]) -> bool
    ensures { result ≡ list_all (λ value. is_weighted (view value)) values.now }
{
    values.iter().all(is_weighted)
}

fn all_filtered(tables: &[Table], text_table: u8, values: &[Value]) -> bool
    requires { AreFew tables.now }
    ensures { result ≡ list_all (λ value. is_filtered tables.now text_table (view value)) values.now }
{
    values
        .iter()
        .all(|value| is_filtered(tables, text_table, value))
}

fn are_placed(tables: &[Table], text_table: u8, value: &Value) -> bool
    requires { AreFew tables.now }
    ensures { result ≡ are_placed tables.now text_table (view value.now) }
{
    all_placed(tables, text_table, elements_at(value, "components"))
}

fn are_weighted(value: &Value) -> bool
    ensures { result ≡ are_weighted (view value.now) }
{
    all_weighted(elements_at(value, "components"))
}

fn are_filtered(tables: &[Table], text_table: u8, value: &Value) -> bool
    requires { AreFew tables.now }
    ensures { result ≡ are_filtered tables.now text_table (view value.now) }
{
    all_filtered(tables, text_table, elements_at(value, "components"))
}

/// The first of the rules 9 to 12 that fails.
#[tactic(auto, unfolding(crate::specs::Steps::component_fault))]
fn component_fault(tables: &[Table], text_table: u8, value: &Value) -> Option<u8>
    requires { AreFew tables.now }
    ensures { result ≡ component_fault tables.now text_table (view value.now) }
{
    if !has_components(value) {
        return Some(9);
    }
    if !are_placed(tables, text_table, value) {
        return Some(10);
    }
    if !are_weighted(value) {
        return Some(11);
    }
    if !are_filtered(tables, text_table, value) {
        return Some(12);
    }
    None
}

/// The components of a value, or the first of the rules 9 to 12 that fails.
pub fn read_components(
    alloc: Global,
    tables: &[Table],
    text_table: u8,
    value: &Value,
) -> Result<Items<Component>, SchemaError>
    requires { AreFew tables.now }
    ensures ok { IfOk result (λ found. (component_fault tables.now text_table (view value.now) ≡ None)
        × (found ≡ components_in tables.now text_table (view value.now))) }
    ensures rule { IfErr result (λ why. (n : ℕ) → why ≡ SchemaError.Rule n
        → component_fault tables.now text_table (view value.now) ≡ Some n) }
{
    match component_fault(tables, text_table, value) {
        Some(rule) => Err(SchemaError::Rule(rule)),
        None => Ok(component_list(alloc, tables, text_table, elements_at(value, "components"))?),
    }
}
