use svr_edge::Memory;

/// Why a request is refused, in the order in which it is tested. A refusal of a row of a load has the row's number, from
/// 1; for every other request the number is `None`.
#[derive(Clone, Copy, Debug, PartialEq, Eq)]
pub enum Refusal {
    /// The line has more than 1,048,576 bytes.
    LineTooLong,
    /// The line isn't JSON.
    NotJson,
    /// The value is no object whose `op` is known.
    UnknownOp,
    /// A member is missing, superfluous or of another form.
    BadShape,
    /// No schema is set.
    NoSchema,
    /// A schema is set already.
    SchemaSet,
    /// The value is no schema, by this rule.
    BadSchema { rule: u8 },
    /// No table has the name.
    NoTable,
    /// The record of a load, by its number from 1, is no row.
    BadCsv { number: u32 },
    /// The first place at which a cell is missing, superfluous or of another kind than the column; 0 for a negative id.
    BadRow { column: u8 },
    /// A text of the row has more than 65,536 bytes.
    TextTooLong { number: Option<u32> },
    /// An insert of an id that is there.
    KeyExists { number: Option<u32> },
    /// An update or a delete of an id that isn't there.
    NoRow,
    /// An insert into a table of 262,144 rows.
    TableFull { number: Option<u32> },
    /// All texts after the change would have more than 67,108,864 bytes.
    TextFull { number: Option<u32> },
    /// The query has no term.
    NoTerms,
    /// The query has more than 16 different terms.
    TooManyTerms,
    /// `k` isn't from 1 to 1,000.
    BadK,
    /// A merge is begun.
    Merging,
    /// No merge is begun.
    NoMerge,
    /// A term is left to be merged.
    MergeUnbuilt,
    /// The journal has no room for the change.
    JournalFull,
    /// Memory was wanting.
    Memory,
}

impl From<Memory> for Refusal {
    ghost use Rattle.std.specs.Prelude.{◌≡◌};
    ghost use Rattle.svr_request.specs.declared.refusal.Refusal.TheVariants as refusal;

    ghost from_gives = { λ _ why. why ≡ refusal.Memory };

    fn from(_memory: Memory) -> Refusal {
        Refusal::Memory
    }
}
