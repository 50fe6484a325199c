ghost use Rattle.std.specs.Prelude.{◌≡◌, Some, true, IfOk};
ghost use Rattle.svr_lines.specs.Reading.{KnowsEnd};

use std::alloc::Global;
use std::test::Fail;
use svr_edge::Memory;
use svr_fakes::MemSource;
use svr_lines::{BlockEnd, InputStop, Lines, Piece};

/// A call of the reader: of `line`, or of `block` with a length.
#[derive(Clone, Copy)]
enum Call {
    Line,
    Block(u64),
}

use Call::{Block, Line};

const LINES: &[Call] = &[Line; 4];

/// Inputs, how many bytes of them may be taken, calls up to one that stops, and what they tell.
const ROWS: &[(&str, u64, &[Call], &str)] = &[
    ("abcdef", 0, LINES, "bytes"),
    ("abcdef", 4, LINES, "bytes"),
    ("abcdef", 6, LINES, "bytes"),
    ("abcdef", 7, LINES, "abcdef|end|end|end|"),
    ("abc\n", 4, LINES, "abc|bytes"),
    ("abc\n", 5, LINES, "abc|end|end|end|"),
    ("ab\ncdef", 5, LINES, "ab|bytes"),
    ("\n\n", 2, LINES, "bytes"),
    ("\n\n", 3, LINES, "end|end|end|end|"),
    ("abcd", 3, &[Block(4)], "bytes"),
    ("abcd", 4, &[Block(4), Line], "abcd/bytes"),
    ("abcd", 4, &[Block(4), Block(0), Block(1)], "abcd//bytes"),
    ("abcd", 4, &[Block(5)], "bytes"),
    ("abcd", 5, &[Block(5), Block(1)], "cut/cut/"),
    ("abcd", 4, &[Block(8_388_609)], "bytes"),
    (
        "abc",
        100,
        &[Block(1), Block(2), Block(1), Block(0)],
        "a/bc/cut//",
    ),
    ("ab\n", 100, &[Block(2), Line, Block(1)], "ab/end|cut/"),
    (
        "ab\ncd",
        100,
        &[Line, Block(2), Line, Block(0)],
        "ab|cd/end|/",
    ),
    ("abcdef\n", 100, &[Block(4), Line, Line], "abcd/ef|end|"),
    ("", 100, &[Block(0), Block(1), Line], "/cut/end|"),
];

fn stop_name(stop: InputStop) -> &'static str {
    match stop {
        InputStop::Input => "input",
        InputStop::Bytes => "bytes",
    }
}

fn push_bytes(alloc: Global, told: &mut String, bytes: &[u8], end: &str) -> Result<(), Memory> {
    told.push_str(String::from_utf8_lossy(alloc, bytes)?.as_str())?;
    told.push_str(end)?;
    Ok(())
}

/// Takes a line, tells it with a bar behind it, and answers whether the reader may be called again.
fn tell_line(
    alloc: Global,
    lines: &mut Lines,
    source: &mut MemSource,
    told: &mut String,
) -> Result<bool, Memory>
    requires { KnowsEnd lines.old (Some source.old.left) }
    ensures { IfOk result (λ more. more ≡ true → KnowsEnd lines.new (Some source.new.left)) }
{
    match lines.line(source) {
        Ok(Piece::Line) => push_bytes(alloc, told, lines.text(), "|")?,
        Ok(Piece::TooLong) => told.push_str("long|")?,
        Ok(Piece::End) => told.push_str("end|")?,
        Err(stop) => {
            told.push_str(stop_name(stop))?;
            return Ok(false);
        }
    }
    Ok(true)
}

/// Takes a block, tells it with a slash behind it, and answers whether the reader may be called again.
fn tell_block(
    alloc: Global,
    lines: &mut Lines,
    source: &mut MemSource,
    length: u64,
    told: &mut String,
) -> Result<bool, Memory>
    requires { KnowsEnd lines.old (Some source.old.left) }
    ensures { IfOk result (λ more. more ≡ true → KnowsEnd lines.new (Some source.new.left)) }
{
    match lines.block(source, length) {
        Ok(BlockEnd::Whole) => push_bytes(alloc, told, lines.block_bytes(), "/")?,
        Ok(BlockEnd::Dropped) => told.push_str("dropped/")?,
        Ok(BlockEnd::Cut) => told.push_str("cut/")?,
        Err(stop) => {
            told.push_str(stop_name(stop))?;
            return Ok(false);
        }
    }
    Ok(true)
}

/// Makes calls over an input, up to one that stops, and gives what they told and how many bytes were taken.
fn told(
    alloc: Global,
    mut source: MemSource,
    limit: u64,
    calls: &[Call],
) -> Result<(String, u64), Memory> {
    let mut lines = Lines::new(alloc, limit)?;
    let mut told = String::new(alloc);
    for call in calls {
        let more = match *call {
            Call::Line => tell_line(alloc, &mut lines, &mut source, &mut told)?,
            Call::Block(length) => tell_block(alloc, &mut lines, &mut source, length, &mut told)?,
        };
        if !more {
            break;
        }
    }
    Ok((told, lines.taken()))
}

/// The first row that isn't told so where a read gives so many bytes at most.
fn first_wrong(alloc: Global, step: u32) -> Result<Option<usize>, Memory> {
    for (place, (input, limit, calls, wanted)) in ROWS.iter().enumerate() {
        let bytes = input.as_bytes().to_vec(alloc)?;
        let source = MemSource::new(bytes, step.max(1), Vec::new(alloc));
        let (told, taken) = told(alloc, source, *limit, calls)?;
        let most = if told.as_str().ends_with("bytes") {
            *limit
        } else {
            input.len() as u64
        };
        if told.as_str() != *wanted || taken != most {
            return Ok(Some(place));
        }
    }
    Ok(None)
}

#[test]
fn no_more_bytes_are_taken_than_may_be(rt: HostRuntime) -> Result<(), Fail> {
    for step in [1, 3, 1_000_000] {
        let wrong = first_wrong(rt.alloc(), step)?;
        assert!(rt; wrong.is_none(), "{wrong:?} in steps of {step}");
    }
    Ok(())
}
