use std::alloc::{AllocError, Global};
use std::test::Fail;
use svr_core::Core;
use svr_edge::{Memory, Text};
use svr_num::Mode;
use svr_request::{Refusal, Request, read_request};

/// Lines, and what they ask for.
const ROWS: &[(&str, &str)] = &[
    ("", "no JSON"),
    (" ", "no JSON"),
    (
        r#"{"op":"schema","schema":{"b":[1,"x"],"a":null}}"#,
        r#"schema {"a":null,"b":[1,"x"]}"#,
    ),
    (r#"{"op":"schema","schema":1,"schema":2}"#, "schema 2"),
    (r#"{"op":"merge"}"#, "merge"),
    (r#"{"op":"merge-begin"}"#, "begin"),
    (r#"{"op":"merge-slice","terms":5}"#, "slice 5"),
    (r#"{"op":"merge-slice","terms":0,"terms":1}"#, "slice 1"),
    (r#"{"op":"merge-slice","terms":1000}"#, "slice 1000"),
    (r#"{"\u006fp":"merge-publish"}"#, "publish"),
    (
        r#"{"op":"search","query":"\ud83d\ude00\n"}"#,
        "all 10 \u{1f600}\n",
    ),
    (
        r#"{"op":"search","query":"a","mode":"any","k":-1}"#,
        "any -1 a",
    ),
    (
        r#"{"op":"search","query":"a","k":18446744073709551615}"#,
        "all 18446744073709551615 a",
    ),
    (
        r#"{"op":"search","query":"a","k":-9223372036854775808}"#,
        "all -9223372036854775808 a",
    ),
];

fn shown_search(alloc: Global, query: &Text, mode: Mode, k: i128) -> Result<String, AllocError> {
    match mode {
        Mode::All => format!(in alloc; "all {k} {}", query.as_str()),
        Mode::Any => format!(in alloc; "any {k} {}", query.as_str()),
    }
}

fn shown(alloc: Global, request: &Request) -> Result<String, AllocError> {
    match request {
        Request::Schema(schema) => format!(in alloc; "schema {}", schema.value.to_string(alloc)?),
        Request::Search { query, mode, k } => shown_search(alloc, query, *mode, *k),
        Request::Merge => String::from_str(alloc, "merge"),
        Request::MergeBegin => String::from_str(alloc, "begin"),
        Request::MergeSlice { terms } => format!(in alloc; "slice {terms}"),
        Request::MergePublish => String::from_str(alloc, "publish"),
        _ => String::from_str(alloc, "rows"),
    }
}

fn told(alloc: Global, line: &str) -> Result<String, Memory> {
    let asked = read_request(alloc, line.as_bytes())?;
    match asked.request {
        Ok(request) => Ok(shown(alloc, &request)?),
        Err(why) => {
            let is_no_json = matches!(why, Refusal::NotJson);
            Ok(String::from_str(alloc, if is_no_json { "no JSON" } else { "refused" })?)
        }
    }
}

fn first_wrong(alloc: Global) -> Result<Option<usize>, Memory> {
    for (place, (line, wanted)) in ROWS.iter().enumerate() {
        if told(alloc, line)?.as_str() != *wanted {
            return Ok(Some(place));
        }
    }
    Ok(None)
}

#[test]
fn lines_ask_for_this(rt: HostRuntime) -> Result<(), Fail> {
    let wrong = first_wrong(rt.alloc())?;
    let changes = Core::empty().changes();
    assert!(rt; wrong.is_none() && changes == 0, "{wrong:?} {changes}");
    Ok(())
}
