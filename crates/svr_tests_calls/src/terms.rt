use std::alloc::{AllocError, Global};
use std::test::Fail;
use svr_edge::{Memory, Text};
use svr_tokens::{Tokens, tokens};

/// Texts, other texts, and what is told of both: the terms of the first in their order, and whether they have all terms of the
/// second, any of them, and the second as it stands as one term, and whether the terms of both are the same.
const ROWS: &[(&str, &str, &str)] = &[
    ("", "", "; true false false true"),
    (" ,;", "", "; true false false true"),
    ("red car, Red CAR", "", "car red; true false false false"),
    ("Straße STRASSE", "strasse", "strasse; true true true true"),
    ("can't", "can", "can't; false false false false"),
    ("a_b 3.14", "3.14", "3.14 a_b; true true true false"),
    ("日本", "日", "日 本; true true true false"),
    ("E\u{301}", "é", "e\u{301}; false false false false"),
    ("z é a", "a z é", "a z é; true true false true"),
    (
        "The brown fox",
        "fox",
        "brown fox the; true true true false",
    ),
    (
        "The brown fox",
        "The",
        "brown fox the; true true false false",
    ),
    (
        "The brown fox",
        "the brown FOX, the",
        "brown fox the; true true false true",
    ),
    (
        "The brown fox",
        "fox under",
        "brown fox the; false true false false",
    ),
    (
        "The brown fox",
        "cat dog",
        "brown fox the; false false false false",
    ),
    (
        "The brown fox",
        "fo",
        "brown fox the; false false false false",
    ),
    ("The brown fox", "", "brown fox the; true false false false"),
    (
        "The brown fox",
        "zoo",
        "brown fox the; false false false false",
    ),
];

/// The terms in their order, with a blank between.
fn joined(alloc: Global, terms: &Tokens) -> Result<String, AllocError> {
    let mut line = String::new(alloc);
    for i in 0..terms.len() {
        if i > 0 {
            line.push(' ')?;
        }
        line.push_str(terms.get(i).as_str())?;
    }
    Ok(line)
}

fn told(alloc: Global, text: &str, other: &str) -> Result<String, Memory> {
    let terms = tokens(alloc, text)?;
    let others = tokens(alloc, other)?;
    let all = terms.has_all(&others);
    let any = terms.has_any(&others);
    let one = terms.has(&Text::new(alloc, other)?);
    let same = terms == others;
    let line = joined(alloc, &terms)?;
    Ok(format!(in alloc; "{line}; {all} {any} {one} {same}")?)
}

fn first_wrong(alloc: Global) -> Result<Option<usize>, Memory> {
    for (place, (text, other, wanted)) in ROWS.iter().enumerate() {
        if told(alloc, text, other)?.as_str() != *wanted {
            return Ok(Some(place));
        }
    }
    Ok(None)
}

#[test]
fn terms_ascend(rt: HostRuntime) -> Result<(), Fail> {
    let wrong = first_wrong(rt.alloc())?;
    assert!(rt; wrong.is_none(), "{wrong:?}");
    Ok(())
}
