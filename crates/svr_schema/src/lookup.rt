ghost use Rattle.std.specs.Prelude.{◌≡◌, ◌≤◌, ◌<◌, length, IfSome};
ghost use Rattle.std.specs.Option.{ForSome};
ghost use Rattle.svr_schema.specs.Lookups.{column_at, column_of_kind, table_at};
ghost use Rattle.svr_schema.specs.Steps.{AreFew};
ghost use Rattle.svr_schema.specs.Tables.{columns_of};

use crate::table::{Column, ColumnKind, Table};

/// A place as it is kept in a schema.
fn place(at: Option<usize>) -> Option<u8>
    requires { ForSome at (λ i. i < 256) }
    ensures { result ≡ at }
{
    Some(at? as u8)
}

fn find_table(tables: &[Table], name: &str) -> Option<usize>
    ensures value { result ≡ table_at tables.now name.now }
    ensures within { IfSome result (λ at. at < length tables.now) }
{
    tables.iter().position(|table| table.name.as_str() == name)
}

fn find_column(columns: &[Column], name: &str) -> Option<usize>
    ensures value { result ≡ column_at columns.now name.now }
    ensures within { IfSome result (λ at. at < length columns.now) }
{
    columns
        .iter()
        .position(|column| column.name.as_str() == name)
}

fn find_column_of_kind(columns: &[Column], kind: ColumnKind, name: &str) -> Option<usize>
    ensures value { result ≡ column_of_kind kind columns.now name.now }
    ensures within { IfSome result (λ at. at < length columns.now) }
{
    columns.iter().position(|column| column.name.as_str() == name && column.kind == kind)
}

/// The place of the table of a name.
pub fn table_at(tables: &[Table], name: &str) -> Option<u8>
    requires { length tables.now ≤ 8 }
    ensures { result ≡ table_at tables.now name.now }
{
    place(find_table(tables, name))
}

/// The place of the column of a name.
pub fn column_at(columns: &[Column], name: &str) -> Option<u8>
    requires { length columns.now ≤ 8 }
    ensures { result ≡ column_at columns.now name.now }
{
    place(find_column(columns, name))
}

/// The place of the column of a name and a kind.
pub fn column_of_kind(columns: &[Column], kind: ColumnKind, name: &str) -> Option<u8>
    requires { length columns.now ≤ 8 }
    ensures { result ≡ column_of_kind kind columns.now name.now }
{
    place(find_column_of_kind(columns, kind, name))
}

/// The columns of a table, none where there is no such table.
pub fn columns_of(tables: &[Table], at: u8) -> &[Column]
    requires { AreFew tables.now }
    ensures columns { result.now ≡ columns_of tables.now at }
    ensures few { length result.now ≤ 8 }
{
    match tables.get(at as usize) {
        Some(table) => table.columns.as_slice(),
        None => &[],
    }
}
