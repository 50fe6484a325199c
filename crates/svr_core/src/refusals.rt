ghost use Rattle.std.specs.Prelude.{◌≡◌};
ghost use Rattle.svr_core.specs.Outcomes.{refusal_of_row};
ghost use Rattle.svr_core.specs.Steps.{query_refusal, refusal_of_block, refusal_of_load, schema_refusal};

use svr_csvload::CsvRefusal;
use svr_request::Refusal;
use svr_rows::{LoadRefusal, RowRefusal};
use svr_schema::SchemaError;
use svr_tokens::QueryRefusal;

/// The refusal of a row, by its number where it is one of a load.
pub fn refused_row(number: Option<u32>, why: RowRefusal) -> Refusal
    ensures { result ≡ refusal_of_row number why }
{
    match why {
        RowRefusal::NoTable => Refusal::NoTable,
        RowRefusal::BadRow { column } => Refusal::BadRow { column },
        RowRefusal::TextTooLong { .. } => Refusal::TextTooLong { number },
        RowRefusal::KeyExists => Refusal::KeyExists { number },
        RowRefusal::NoRow => Refusal::NoRow,
        RowRefusal::TableFull => Refusal::TableFull { number },
        RowRefusal::TextFull => Refusal::TextFull { number },
    }
}

pub fn refused_load(why: LoadRefusal) -> Refusal
    ensures { result ≡ refusal_of_load why }
{
    match why {
        LoadRefusal::At { number, why } => refused_row(Some(number), why),
        LoadRefusal::Memory => Refusal::Memory,
    }
}

pub fn refused_block(why: CsvRefusal) -> Refusal
    ensures { result ≡ refusal_of_block why }
{
    match why {
        CsvRefusal::Number(number) => Refusal::BadCsv { number },
        CsvRefusal::Memory => Refusal::Memory,
    }
}

pub fn refused_query(why: QueryRefusal) -> Refusal
    ensures { result ≡ query_refusal why }
{
    match why {
        QueryRefusal::NoTerms => Refusal::NoTerms,
        QueryRefusal::TooManyTerms => Refusal::TooManyTerms,
        QueryRefusal::Memory => Refusal::Memory,
    }
}

pub fn refused_schema(why: SchemaError) -> Refusal
    ensures { result ≡ schema_refusal why }
{
    match why {
        SchemaError::Rule(rule) => Refusal::BadSchema { rule },
        SchemaError::Memory => Refusal::Memory,
    }
}
