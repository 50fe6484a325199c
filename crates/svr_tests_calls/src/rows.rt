ghost use Rattle.std.specs.Prelude.{◌≡◌, length};

use serde_json::Value;
use std::alloc::{AllocError, Global};
use std::test::Fail;
use svr_edge::{Items, Memory, Text};
use svr_rows::{Change, LoadRefusal, Row, RowRefusal, Tables};
use svr_schema::{Cell, read_schema};

/// The tables docs (id, score and text) and ids.
const SCHEMA: &str =
    r#"{"tables":[{"name":"docs","columns":[{"name":"id","type":"int"},{"name":"score","type":"int"},{"name":"text","type":"text"}]},{"name":"ids","columns":[{"name":"id","type":"int"}]}],"text":{"table":"docs","column":"text"},"components":[],"divisor":1,"method":{"kind":"id"}}"#;

/// A call, with the place of a table.
#[derive(Clone, Copy)]
enum Call {
    /// A change, if it isn't refused.
    Insert(u8),
    Update(u8),
    Delete(u8),
    /// A delete that isn't tested.
    Remove(u8),
    /// The test of the inserts of rows, with commas between.
    Load(u8),
    /// The row of an id.
    Row(u8),
    /// The row of the least id above one, or of all where none is given.
    Next(u8),
}

use Call::{Delete, Insert, Load, Next, Remove, Update};

/// Calls one after the other, the words of their rows or ids, and what they answer: a refusal, or the row that stands or stood
/// there. Then the rows in docs and in ids, and the bytes of all texts.
const STEPS: &[(Call, &str, &str, (u32, u32, u64))] = &[
    (Insert(0), "5 10 abc", "-", (1, 0, 3)),
    (Insert(0), "3 -1 de", "-", (2, 0, 5)),
    (Insert(1), "5", "-", (2, 1, 5)),
    (Insert(0), "9 0 a*0", "-", (3, 1, 5)),
    (Update(0), "3 7 fghi", "3 -1 de", (3, 1, 7)),
    (Update(0), "5 10 a", "5 10 abc", (3, 1, 5)),
    (Update(1), "5", "5", (3, 1, 5)),
    (Call::Row(0), "3", "3 7 fghi", (3, 1, 5)),
    (Call::Row(1), "5", "5", (3, 1, 5)),
    (Call::Row(1), "3", "-", (3, 1, 5)),
    (Call::Row(0), "9223372036854775808", "-", (3, 1, 5)),
    (Next(0), "", "3 7 fghi", (3, 1, 5)),
    (Next(0), "0", "3 7 fghi", (3, 1, 5)),
    (Next(0), "3", "5 10 a", (3, 1, 5)),
    (Next(0), "5", "9 0 ", (3, 1, 5)),
    (Next(0), "9", "-", (3, 1, 5)),
    (Next(1), "", "5", (3, 1, 5)),
    (Next(1), "5", "-", (3, 1, 5)),
    (Next(1), "18446744073709551615", "-", (3, 1, 5)),
    // Ids above 262,143, which are kept elsewhere.
    (Insert(1), "262144", "-", (3, 2, 5)),
    (Insert(1), "9223372036854775807", "-", (3, 3, 5)),
    (Next(1), "5", "262144", (3, 3, 5)),
    (Next(1), "262143", "262144", (3, 3, 5)),
    (Next(1), "262144", "9223372036854775807", (3, 3, 5)),
    (Next(1), "9223372036854775807", "-", (3, 3, 5)),
    (Delete(1), "262144", "262144", (3, 2, 5)),
    (Next(1), "5", "9223372036854775807", (3, 2, 5)),
    (
        Delete(1),
        "9223372036854775807",
        "9223372036854775807",
        (3, 1, 5),
    ),
    (Insert(0), "5 0 x", "KeyExists", (3, 1, 5)),
    (Update(0), "4 0 x", "NoRow", (3, 1, 5)),
    (Delete(0), "4", "NoRow", (3, 1, 5)),
    (Delete(0), "3", "3 7 fghi", (2, 1, 1)),
    (Delete(0), "3", "NoRow", (2, 1, 1)),
    (Remove(0), "3", "-", (2, 1, 1)),
    (Update(0), "3 0 x", "NoRow", (2, 1, 1)),
    (Insert(0), "3 0 xy", "-", (3, 1, 3)),
    (Delete(1), "5", "5", (3, 0, 3)),
    (Remove(0), "9", "9 0 ", (2, 0, 3)),
    (Remove(0), "3", "3 0 xy", (1, 0, 1)),
    (Next(0), "", "5 10 a", (1, 0, 1)),
    (Next(1), "", "-", (1, 0, 1)),
    (Insert(0), "1 5 ab", "-", (2, 0, 3)),
    // Of several causes that hold at once the first is answered.
    (Insert(2), "-1", "NoTable", (2, 0, 3)),
    (Update(2), "2 2 a*65537", "NoTable", (2, 0, 3)),
    (Delete(255), "9", "NoTable", (2, 0, 3)),
    (Insert(0), "1 x a*65537", "BadRow 1", (2, 0, 3)),
    (Insert(0), "1 5 a*65537 4", "BadRow 3", (2, 0, 3)),
    (Insert(0), "1 x abc", "BadRow 1", (2, 0, 3)),
    (Insert(0), "1 5", "BadRow 2", (2, 0, 3)),
    (Insert(0), "-1 x", "BadRow 0", (2, 0, 3)),
    (Insert(1), "5 6", "BadRow 1", (2, 0, 3)),
    (Update(0), "2 x abc", "BadRow 1", (2, 0, 3)),
    (Update(0), "", "BadRow 0", (2, 0, 3)),
    (Update(0), "-1", "BadRow 0", (2, 0, 3)),
    (Insert(0), "1 5 a*65537", "TextTooLong 2", (2, 0, 3)),
    (Update(0), "2 5 a*65537", "TextTooLong 2", (2, 0, 3)),
    (Update(0), "1 5 a*65537", "TextTooLong 2", (2, 0, 3)),
    (Insert(0), "1 5 a*65536", "KeyExists", (2, 0, 3)),
    (Update(0), "2 5 a*65536", "NoRow", (2, 0, 3)),
    (Delete(1), "1", "NoRow", (2, 0, 3)),
    // Of the rows of a load the first is answered that is refused after those before it.
    (Load(0), "", "-", (2, 0, 3)),
    (Load(2), "", "-", (2, 0, 3)),
    (Load(255), "", "-", (2, 0, 3)),
    (Load(0), "9 0 a,3 1 bc,7 2 a*0", "-", (2, 0, 3)),
    (Load(2), "-1,3", "1 NoTable", (2, 0, 3)),
    (Load(0), ",3 0 a", "1 BadRow 0", (2, 0, 3)),
    (Load(0), "3 0 a,-4 0 a", "2 BadRow 0", (2, 0, 3)),
    (Load(0), "3 0 a,3 x a", "2 BadRow 1", (2, 0, 3)),
    (Load(0), "3 0 a,4 0 a,6 0 a 6", "3 BadRow 3", (2, 0, 3)),
    (Load(0), "3 0 a,4 0 a*65537", "2 TextTooLong 2", (2, 0, 3)),
    (Load(0), "3 0 a,1 0 a*65537", "2 TextTooLong 2", (2, 0, 3)),
    (Load(0), "3 0 a,1 0 a,4 x a", "2 KeyExists", (2, 0, 3)),
    (Load(0), "3 0 a,4 x a,1 0 a", "2 BadRow 1", (2, 0, 3)),
];

/// The tables of the schema.
#[derive(Drop)]
struct TwoTables {
    tables: Tables,
    ghost two: { length tables ≡ 2 },
}

impl TwoTables {
    fn new(alloc: Global) -> Result<Option<TwoTables>, Fail> {
        let value = Value::from_str(alloc, SCHEMA)?;
        let schema = read_schema(alloc, &value)?;
        if schema.tables.len() != 2 {
            return Ok(None);
        }
        let tables = Tables::new(alloc, &schema)?;
        Ok(Some(TwoTables { tables }))
    }

    fn answer(&mut self, alloc: Global, call: Call, words: &str) -> Result<String, Memory> {
        match call {
            Insert(table) => {
                let row = row(alloc, words)?;
                self.change(alloc, Change::Insert { table, row })
            }
            Update(table) => {
                let row = row(alloc, words)?;
                self.change(alloc, Change::Update { table, row })
            }
            Delete(table) => {
                let id = id(words);
                self.change(alloc, Change::Delete { table, id })
            }
            Remove(table) => {
                let before = self.tables.remove(table.min(1), id(words));
                Ok(line_of(alloc, before.as_ref())?)
            }
            Load(table) => self.load(alloc, table, words),
            Call::Row(table) => Ok(line_of(alloc, self.tables.row(table.min(1), id(words)))?),
            Next(table) => Ok(line_of(alloc, self.tables.next_row(table.min(1), given_id(words)))?),
        }
    }

    fn change(&mut self, alloc: Global, change: Change) -> Result<String, Memory> {
        if let Err(why) = self.tables.check(&change) {
            return Ok(refusal(alloc, why)?);
        }
        let before = self.tables.apply(change)?;
        Ok(line_of(alloc, before.as_ref())?)
    }

    fn load(&self, alloc: Global, table: u8, words: &str) -> Result<String, Memory> {
        let rows = rows(alloc, words)?;
        let few = &rows[..rows.len().min(8)];
        match self.tables.check_all(alloc, table, few) {
            Ok(()) => Ok(String::from_str(alloc, "-")?),
            Err(LoadRefusal::At { number, why }) => {
                let why = refusal(alloc, why)?;
                Ok(format!(in alloc; "{number} {why}")?)
            }
            Err(LoadRefusal::Memory) => Err(Memory),
        }
    }

    fn sizes(&self) -> (u32, u32, u64) {
        (
            self.tables.count(0),
            self.tables.count(1),
            self.tables.text_bytes(),
        )
    }
}

fn refusal(alloc: Global, why: RowRefusal) -> Result<String, AllocError> {
    match why {
        RowRefusal::NoTable => String::from_str(alloc, "NoTable"),
        RowRefusal::BadRow { column } => format!(in alloc; "BadRow {column}"),
        RowRefusal::TextTooLong { column } => format!(in alloc; "TextTooLong {column}"),
        RowRefusal::KeyExists => String::from_str(alloc, "KeyExists"),
        RowRefusal::NoRow => String::from_str(alloc, "NoRow"),
        RowRefusal::TableFull => String::from_str(alloc, "TableFull"),
        RowRefusal::TextFull => String::from_str(alloc, "TextFull"),
    }
}

fn id(words: &str) -> u64 {
    words.parse().unwrap_or(0)
}

fn given_id(words: &str) -> Option<u64> {
    words.parse().ok()
}

/// A row of the cells that words say: a number, or a text; `a*3` is `aaa`.
fn row(alloc: Global, words: &str) -> Result<Row, AllocError> {
    let mut cells = Vec::new(alloc);
    for word in words.split_ascii_whitespace() {
        let cell = match word.parse::<i64>() {
            Ok(number) => Cell::Int(number),
            Err(_) => Cell::Text(Text::from_string(text(alloc, word)?)),
        };
        cells.push(cell)?;
    }
    Ok(Row {
        cells: Items::from_vec(cells),
    })
}

fn text(alloc: Global, word: &str) -> Result<String, AllocError> {
    let (letter, count) = word.split_once('*').unwrap_or((word, "1"));
    let mut text = String::new(alloc);
    for _ in 0..count.parse::<u32>().unwrap_or(0) {
        text.push_str(letter)?;
    }
    Ok(text)
}

fn rows(alloc: Global, words: &str) -> Result<Vec<Row>, AllocError> {
    let mut rows = Vec::new(alloc);
    if words.is_empty() {
        return Ok(rows);
    }
    for part in words.split(',') {
        rows.push(row(alloc, part)?)?;
    }
    Ok(rows)
}

/// The cells with a blank between, or `-` where there is no row.
fn line_of(alloc: Global, row: Option<&Row>) -> Result<String, AllocError> {
    let Some(row) = row else {
        return String::from_str(alloc, "-");
    };
    let mut line = String::new(alloc);
    for (place, cell) in row.cells.as_slice().iter().enumerate() {
        if place > 0 {
            line.push(' ')?;
        }
        match cell {
            Cell::Int(number) => line.push_str(format!(in alloc; "{number}")?.as_str())?,
            Cell::Text(text) => line.push_str(text.as_str())?,
        }
    }
    Ok(line)
}

/// The first step that isn't answered so, or after which the sizes are others.
fn first_wrong(alloc: Global) -> Result<Option<usize>, Fail> {
    let Some(mut tables) = TwoTables::new(alloc)? else {
        return Ok(Some(usize::MAX));
    };
    for (place, (call, words, wanted, sizes)) in STEPS.iter().enumerate() {
        let answer = tables.answer(alloc, *call, words)?;
        if answer.as_str() != *wanted || tables.sizes() != *sizes {
            return Ok(Some(place));
        }
    }
    Ok(None)
}

#[test]
fn changes_are_made_or_refused(rt: HostRuntime) -> Result<(), Fail> {
    let wrong = first_wrong(rt.alloc())?;
    assert!(rt; wrong.is_none(), "{wrong:?}");
    Ok(())
}
