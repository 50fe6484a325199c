use std::alloc::{AllocError, Global};
use std::test::Fail;
use svr_edge::Sink;
use svr_fakes::MemSink;

const BYTES: [u8; 5] = [9, 8, 0, 255, 8];

/// What is added to the number of a flush in the list of failing calls.
const FLUSH: u64 = 1 << 32;

/// A call of a sink, and what it has to answer.
#[derive(Clone, Copy)]
enum Call {
    /// A write of the bytes that are left: how many are taken, `None` for a failed write.
    Write(Option<usize>),
    /// A flush: whether it succeeds.
    Flush(bool),
}

use Call::{Flush, Write};

const FAILS: Call = Write(None);

const ONE: Call = Write(Some(1));

const TWO: Call = Write(Some(2));

const NONE: Call = Write(Some(0));

/// The most bytes of a write, the numbers of the calls that fail, the calls, and how many of the bytes are taken.
const ROWS: &[(u32, &[u64], &[Call], usize)] = &[
    (1, &[], &[ONE, ONE, ONE, ONE, ONE, NONE], 5),
    (2, &[], &[TWO, TWO, ONE, NONE], 5),
    (1_000, &[], &[Write(Some(5)), NONE], 5),
    (1_000, &[1], &[FAILS, Write(Some(5))], 5),
    (2, &[4, 2], &[TWO, FAILS, TWO, FAILS], 4),
    (2, &[1, 2, 3], &[FAILS, FAILS, FAILS], 0),
    (2, &[0, 1 + FLUSH], &[TWO, TWO, ONE], 5),
    (
        3,
        &[3, 2 + FLUSH, u64::MAX],
        &[
            Flush(true),
            Flush(false),
            Flush(true),
            Write(Some(3)),
            TWO,
            FAILS,
            Flush(true),
            Flush(true),
        ],
        5,
    ),
];

/// Whether the calls are answered as they have to be, over a sink of any kind.
fn answers<O: Sink>(sink: &mut O, calls: &[Call]) -> bool {
    let mut rest = BYTES.as_slice();
    for call in calls {
        match call {
            Write(wanted) => {
                let answer = sink.write(rest).ok();
                if answer != *wanted {
                    return false;
                }
                rest = &rest[answer.unwrap_or(0)..];
            }
            Flush(wanted) => {
                if sink.flush().is_ok() != *wanted {
                    return false;
                }
            }
        }
    }
    true
}

/// The first row that a sink in memory doesn't answer so.
fn first_wrong(alloc: Global) -> Result<Option<usize>, AllocError> {
    for (place, (step, fail, calls, taken)) in ROWS.iter().enumerate() {
        let mut sink = MemSink::new((*step).max(1), fail.to_vec(alloc)?);
        if !answers(&mut sink, calls) || sink.taken() != &BYTES[..*taken.min(&5)] {
            return Ok(Some(place));
        }
    }
    Ok(None)
}

#[test]
fn a_sink_takes_what_is_written(rt: HostRuntime) -> Result<(), Fail> {
    let wrong = first_wrong(rt.alloc())?;
    assert!(rt; wrong.is_none(), "{wrong:?}");
    Ok(())
}
