use serde_json::Value;
use std::alloc::{AllocError, Global};
use std::test::Fail;
use svr_num::Aggregate;
use svr_schema::{
    Cell, ColumnKind, Component, Filter, MethodSpec, Schema, SchemaError, Table, read_schema,
};

/// A schema without its last brace. Of two members of one name the last one counts, so a row says what its schema has in place
/// of these.
const FRONT: &str =
    r#"{"tables":[{"name":"docs","columns":[{"name":"id","type":"int"},{"name":"score","type":"int"},{"name":"body","type":"text"}]},{"name":"marks","columns":[{"name":"id","type":"int"},{"name":"doc","type":"int"},{"name":"stars","type":"int"},{"name":"tag","type":"text"}]}],"text":{"table":"docs","column":"body"},"components":[{"kind":"own","column":"score","weight":1}],"divisor":1,"method":{"kind":"id"}"#;

/// The tables of it, as they are shown.
const TABLES: &str = "docs(id int,score int,body text) marks(id int,doc int,stars int,tag text); ";

/// Members in place of those of the front, and the schema behind its tables.
const ROWS: &[(&str, &str)] = &[
    (r#""divisor":1"#, "text 0.2; own 1 *1; over 1; id"),
    (
        r#""text":{"table":"marks","column":"tag"},"components":[{"kind":"sum","table":"docs","by":"id","column":"score","weight":1},{"kind":"own","column":"doc","weight":2}]"#,
        "text 1.3; sum 0.1 by 0 *1 else 0, own 1 *2; over 1; id",
    ),
    (
        r#""text":{"table":"marks","table":"docs","column":0,"column":"body"},"components":[{"kind":"sum","weight":5.0,"kind":"own","column":"score","weight":5}],"divisor":0,"divisor":3"#,
        "text 0.2; own 1 *5; over 3; id",
    ),
    (r#""components":[]"#, "text 0.2; ; over 1; id"),
    (
        r#""components":[{"kind":"own","column":"score","weight":-1000000000},{"weight":1000000000,"column":"id","kind":"own"}]"#,
        "text 0.2; own 1 *-1000000000, own 0 *1000000000; over 1; id",
    ),
    (
        r#""components":[{"kind":"sum","table":"marks","by":"id","column":"doc","weight":0}]"#,
        "text 0.2; sum 1.1 by 0 *0 else 0; over 1; id",
    ),
    (
        r#""components":[{"kind":"sum","table":"marks","by":"doc","column":"stars","weight":-1,"filter":{"column":"stars","equals":5}}]"#,
        "text 0.2; sum 1.2 by 1 *-1 else 0 where 2=5; over 1; id",
    ),
    (
        r#""components":[{"kind":"count","table":"marks","by":"doc","weight":7}]"#,
        "text 0.2; count 1.0 by 1 *7 else 0; over 1; id",
    ),
    (
        r#""components":[{"kind":"count","table":"marks","by":"doc","weight":7,"filter":{"column":"tag","equals":"red"}}]"#,
        "text 0.2; count 1.0 by 1 *7 else 0 where 3='red'; over 1; id",
    ),
    (
        r#""components":[{"kind":"min","table":"marks","by":"doc","column":"stars","weight":1,"empty":1000000000}]"#,
        "text 0.2; min 1.2 by 1 *1 else 1000000000; over 1; id",
    ),
    (
        r#""components":[{"kind":"min","table":"marks","by":"doc","column":"stars","weight":1,"empty":-1,"filter":{"column":"id","equals":-9223372036854775808}}]"#,
        "text 0.2; min 1.2 by 1 *1 else -1 where 0=-9223372036854775808; over 1; id",
    ),
    (
        r#""components":[{"kind":"max","table":"marks","by":"doc","column":"stars","weight":1,"empty":-1000000000}]"#,
        "text 0.2; max 1.2 by 1 *1 else -1000000000; over 1; id",
    ),
    (
        r#""components":[{"kind":"max","table":"marks","by":"doc","column":"stars","weight":1,"empty":0,"filter":{"equals":9223372036854775807,"column":"doc"}}]"#,
        "text 0.2; max 1.2 by 1 *1 else 0 where 1=9223372036854775807; over 1; id",
    ),
    (
        r#""components":[{"kind":"avg","table":"marks","by":"stars","column":"id","weight":1,"empty":9}]"#,
        "text 0.2; avg 1.0 by 2 *1 else 9; over 1; id",
    ),
    (
        r#""components":[{"kind":"avg","table":"marks","by":"doc","column":"stars","weight":1,"empty":9,"filter":{"column":"tag","equals":""}}]"#,
        "text 0.2; avg 1.2 by 1 *1 else 9 where 3=''; over 1; id",
    ),
    (
        r#""divisor":1000000000,"method":{"kind":"score"}"#,
        "text 0.2; own 1 *1; over 1000000000; score",
    ),
    (
        r#""divisor":2,"method":{"kind":"score-threshold","num":1,"den":1}"#,
        "text 0.2; own 1 *1; over 2; threshold 1 1",
    ),
    (
        r#""method":{"kind":"score-threshold","num":1000000,"den":1}"#,
        "text 0.2; own 1 *1; over 1; threshold 1000000 1",
    ),
    (
        r#""method":{"den":1000000,"num":1000000,"kind":"score-threshold"}"#,
        "text 0.2; own 1 *1; over 1; threshold 1000000 1000000",
    ),
    (
        r#""method":{"kind":"chunk","ratio":100,"min_docs":1}"#,
        "text 0.2; own 1 *1; over 1; chunk 100 1",
    ),
    (
        r#""method":{"kind":"chunk","ratio":100000,"min_docs":1000000}"#,
        "text 0.2; own 1 *1; over 1; chunk 100000 1000000",
    ),
];

/// Whole schemas, as they are shown.
const WHOLE: &[(&str, &str)] = &[
    (
        r#"{"tables":[{"name":"docs","columns":[{"name":"id","type":"int"},{"name":"score","type":"int"},{"name":"text","type":"text"}]}],"text":{"table":"docs","column":"text"},"components":[{"kind":"own","column":"score","weight":1}],"divisor":1,"method":{"kind":"chunk","ratio":200,"min_docs":1}}"#,
        "docs(id int,score int,text text); text 0.2; own 1 *1; over 1; chunk 200 1",
    ),
    (
        r#"{"tables":[{"name":"movies","columns":[{"name":"id","type":"int"},{"name":"title","type":"text"}]},{"name":"reviews","columns":[{"name":"id","type":"int"},{"name":"movie","type":"int"},{"name":"stars","type":"int"}]},{"name":"visits","columns":[{"name":"id","type":"int"},{"name":"movie","type":"int"},{"name":"hits","type":"int"}]}],"text":{"table":"movies","column":"title"},"components":[{"kind":"avg","table":"reviews","by":"movie","column":"stars","weight":200,"empty":0},{"kind":"sum","table":"visits","by":"movie","column":"hits","weight":1}],"divisor":2,"method":{"kind":"chunk","ratio":200,"min_docs":1}}"#,
        "movies(id int,title text) reviews(id int,movie int,stars int) visits(id int,movie int,hits int); text 0.1; avg 1.2 by 1 *200 else 0, sum 2.2 by 1 *1 else 0; over 2; chunk 200 1",
    ),
    (
        r#"{"tables":[{"name":"movies","columns":[{"name":"id","type":"int"},{"name":"title","type":"text"}]},{"name":"reviews","columns":[{"name":"id","type":"int"},{"name":"movie","type":"int"},{"name":"stars","type":"int"}]},{"name":"visits","columns":[{"name":"id","type":"int"},{"name":"movie","type":"int"},{"name":"hits","type":"int"}]}],"text":{"table":"movies","column":"title"},"components":[{"kind":"min","table":"reviews","by":"movie","column":"stars","weight":1,"empty":3}],"divisor":1,"method":{"kind":"chunk","ratio":200,"min_docs":1}}"#,
        "movies(id int,title text) reviews(id int,movie int,stars int) visits(id int,movie int,hits int); text 0.1; min 1.2 by 1 *1 else 3; over 1; chunk 200 1",
    ),
    (
        r#" { "method" : {"kind":"id"} , "divisor" : 2 , "components" : [ ] , "text" : {"column":"b","table":"\u0061"} , "tables" : [{"columns":[{"type":"int","name":"id"},{"type":"text","name":"b"},{"type":"text","name":"c"}],"name":"a"}] } "#,
        "a(id int,b text,c text); text 0.1; ; over 2; id",
    ),
];

/// `docs(id int,body text)`
fn shown_table(alloc: Global, table: &Table) -> Result<String, AllocError> {
    let mut shown = format!(in alloc; "{}(", table.name.as_str())?;
    for (place, column) in table.columns.as_slice().iter().enumerate() {
        let comma = if place > 0 { "," } else { "" };
        let kind = match column.kind {
            ColumnKind::Int => "int",
            ColumnKind::Text => "text",
        };
        let column = format!(in alloc; "{comma}{} {kind}", column.name.as_str())?;
        shown.push_str(column.as_str())?;
    }
    shown.push(')')?;
    Ok(shown)
}

/// The tables with a blank between.
fn shown_tables(alloc: Global, tables: &[Table]) -> Result<String, AllocError> {
    let mut shown = String::new(alloc);
    for (place, table) in tables.iter().enumerate() {
        shown.push_str(if place > 0 { " " } else { "" })?;
        shown.push_str(shown_table(alloc, table)?.as_str())?;
    }
    Ok(shown)
}

/// ` where 1=5`, ` where 3='red'`, or nothing.
fn shown_filter(alloc: Global, filter: &Option<Filter>) -> Result<String, AllocError> {
    match filter {
        Some(Filter { column, equals }) => match equals {
            Cell::Int(number) => format!(in alloc; " where {column}={number}"),
            Cell::Text(text) => format!(in alloc; " where {column}='{}'", text.as_str()),
        },
        None => Ok(String::new(alloc)),
    }
}

fn name(how: Aggregate) -> &'static str {
    match how {
        Aggregate::Sum => "sum",
        Aggregate::Count => "count",
        Aggregate::Min => "min",
        Aggregate::Max => "max",
        Aggregate::Avg => "avg",
    }
}

/// `own 1 *1`, or `avg 1.2 by 1 *200 else 0` for column 2 of table 1.
fn shown_component(alloc: Global, component: &Component) -> Result<String, AllocError> {
    match component {
        Component::Own { column, weight } => format!(in alloc; "own {column} *{weight}"),
        Component::Over {
            how,
            table,
            by,
            column,
            weight,
            empty,
            filter,
        } => {
            let how = name(*how);
            let filter = shown_filter(alloc, filter)?;
            format!(in alloc; "{how} {table}.{column} by {by} *{weight} else {empty}{filter}")
        }
    }
}

/// The components with `, ` between.
fn shown_components(alloc: Global, components: &[Component]) -> Result<String, AllocError> {
    let mut shown = String::new(alloc);
    for (place, component) in components.iter().enumerate() {
        shown.push_str(if place > 0 { ", " } else { "" })?;
        shown.push_str(shown_component(alloc, component)?.as_str())?;
    }
    Ok(shown)
}

fn shown_method(alloc: Global, method: MethodSpec) -> Result<String, AllocError> {
    match method {
        MethodSpec::Id => String::from_str(alloc, "id"),
        MethodSpec::Score => String::from_str(alloc, "score"),
        MethodSpec::Threshold { num, den } => format!(in alloc; "threshold {num} {den}"),
        MethodSpec::Chunk { ratio, min_docs } => format!(in alloc; "chunk {ratio} {min_docs}"),
    }
}

/// `TABLES; text 0.2; COMPONENTS; over 1; METHOD`
fn shown(alloc: Global, schema: &Schema) -> Result<String, AllocError> {
    let tables = shown_tables(alloc, schema.tables.as_slice())?;
    let text = format!(in alloc; "text {}.{}", schema.text_table, schema.text_column)?;
    let components = shown_components(alloc, schema.components.as_slice())?;
    let method = shown_method(alloc, schema.method)?;
    let divisor = schema.divisor;
    format!(in alloc; "{tables}; {text}; {components}; over {divisor}; {method}")
}

/// Whether the schema that a text is is shown so.
fn is_shown(alloc: Global, text: &str, wanted: &str) -> Result<bool, Fail> {
    let value = Value::from_str(alloc, text)?;
    let schema = read_schema(alloc, &value)?;
    Ok(shown(alloc, &schema)?.as_str() == wanted)
}

/// The first row whose schema isn't shown so.
fn first_wrong(alloc: Global) -> Result<Option<usize>, Fail> {
    for (place, (members, wanted)) in ROWS.iter().enumerate() {
        let text = format!(in alloc; "{FRONT},{members}}}")?;
        let wanted = format!(in alloc; "{TABLES}{wanted}")?;
        if !is_shown(alloc, text.as_str(), wanted.as_str())? {
            return Ok(Some(place));
        }
    }
    for (place, (text, wanted)) in WHOLE.iter().enumerate() {
        if !is_shown(alloc, text, wanted)? {
            return Ok(Some(place));
        }
    }
    Ok(None)
}

/// The front of a schema, up to the text that a filter asks for.
const LONG: &str =
    r#"{"tables":[{"name":"a","columns":[{"name":"id","type":"int"},{"name":"t","type":"text"}]},{"name":"b","columns":[{"name":"id","type":"int"},{"name":"t","type":"text"}]}],"text":{"table":"a","column":"t"},"components":[{"kind":"count","table":"b","by":"id","weight":1,"filter":{"column":"t","equals":""#;

/// What stands behind that text; with the front 340 bytes.
const GOOD: &str = r#""}}],"divisor":1,"method":{"kind":"id"}}"#;

/// The same, where rule 13 fails.
const BAD: &str = r#""}}],"divisor":0,"method":{"kind":"id"}}"#;

/// A piece, how often it stands in that text, what stands behind it, and the rule that fails, 0 where none does. The text that is
/// written for the value has 1,048,576 bytes at most, however long the one is that was read.
const LONG_ROWS: &[(&str, usize, &str, u8)] = &[
    ("x", 1_048_576 - 340, GOOD, 0),
    ("x", 1_048_577 - 340, GOOD, 14),
    ("x", 1_048_577 - 340, BAD, 13),
    (r"\u0078", 1_048_576 - 340, GOOD, 0),
    (r"\u0078", 1_048_577 - 340, GOOD, 14),
    ("é", 524_288 - 170, GOOD, 0),
    ("é", 524_289 - 170, GOOD, 14),
    (r"\u0001", 174_706, GOOD, 0),
    (r"\u0001", 174_707, GOOD, 14),
];

/// The rule by which a schema is refused whose filter asks for so many pieces, 0 where none is.
fn failing_rule(alloc: Global, piece: &str, count: usize, back: &str) -> Result<u8, Fail> {
    let mut text = String::from_str(alloc, LONG)?;
    for _ in 0..count {
        text.push_str(piece)?;
    }
    text.push_str(back)?;
    let value = Value::from_str(alloc, text.as_str())?;
    match read_schema(alloc, &value) {
        Ok(_) => Ok(0),
        Err(SchemaError::Rule(rule)) => Ok(rule),
        Err(SchemaError::Memory) => Ok(u8::MAX),
    }
}

/// The first of the long rows that isn't answered so.
fn first_wrong_of_long(alloc: Global) -> Result<Option<usize>, Fail> {
    for (place, (piece, count, back, rule)) in LONG_ROWS.iter().enumerate() {
        if failing_rule(alloc, piece, *count, back)? != *rule {
            return Ok(Some(place));
        }
    }
    Ok(None)
}

#[test]
fn schemas_are_kept_as_they_are_given(rt: HostRuntime) -> Result<(), Fail> {
    let wrong = first_wrong(rt.alloc())?;
    let wrong_of_long = first_wrong_of_long(rt.alloc())?;
    assert!(rt;
        wrong.is_none() && wrong_of_long.is_none(),
        "{wrong:?} {wrong_of_long:?}"
    );
    Ok(())
}
