ghost use Rattle.std.specs.Prelude.{◌≡◌};
ghost use Rattle.svr_spec.specs.Filters.{passes, same_cell};

use svr_schema::{Cell, Filter};

/// Whether two cells hold the same number, or the same text.
fn same_cell(a: &Cell, b: &Cell) -> bool
    ensures { result ≡ same_cell a.now b.now }
{
    match (a, b) {
        (Cell::Int(m), Cell::Int(n)) => m == n,
        (Cell::Text(s), Cell::Text(t)) => s.as_str() == t.as_str(),
        _ => false,
    }
}

/// Whether a row of these cells passes a filter: the filter's column holds the value that it asks for. Where there is no
/// filter, each row passes.
pub fn passes(filter: &Option<Filter>, cells: &[Cell]) -> bool
    ensures { result ≡ passes filter.now cells.now }
{
    let Some(filter) = filter else {
        return true;
    };
    match cells.get(filter.column as usize) {
        Some(cell) => same_cell(&filter.equals, cell),
        None => false,
    }
}
