use std::alloc::{AllocError, Global};
use std::test::Fail;
use svr_edge::{SliceSource, Source};
use svr_fakes::MemSource;

const BYTES: [u8; 5] = [7, 0, 255, 1, 7];

/// Reads up to the end: into how many bytes, at most 8, and how many have to be given, `None` for a failed read.
type Reads = &'static [(usize, Option<usize>)];

const ONE: Option<usize> = Some(1);

const TWO: Option<usize> = Some(2);

const END: Option<usize> = Some(0);

/// The most bytes of a read, the numbers of the reads that fail, and the reads of a source in memory.
const ROWS: &[(u32, &[u64], Reads)] = &[
    (
        1,
        &[],
        &[
            (8, ONE),
            (8, ONE),
            (8, ONE),
            (8, ONE),
            (8, ONE),
            (8, END),
            (8, END),
        ],
    ),
    (2, &[], &[(8, TWO), (8, TWO), (8, ONE), (8, END)]),
    (1_000, &[], &[(8, Some(5)), (8, END)]),
    (1_000, &[], &[(3, Some(3)), (3, TWO), (3, END)]),
    (
        2,
        &[1],
        &[(8, None), (8, TWO), (8, TWO), (8, ONE), (8, END)],
    ),
    (
        2,
        &[4, 2, 6],
        &[
            (8, TWO),
            (8, None),
            (8, TWO),
            (8, None),
            (8, ONE),
            (8, None),
            (8, END),
        ],
    ),
    (
        1_000,
        &[2, 3],
        &[(8, Some(5)), (8, None), (8, None), (8, END)],
    ),
    (
        1,
        &[0, 1 << 32, u64::MAX],
        &[(8, ONE), (8, ONE), (8, ONE), (8, ONE), (8, ONE), (8, END)],
    ),
    // A read with no room is counted.
    (
        2,
        &[2],
        &[
            (0, END),
            (0, None),
            (0, END),
            (8, TWO),
            (8, TWO),
            (8, ONE),
            (8, END),
        ],
    ),
];

/// The reads of a source over a slice.
const SLICE_ROWS: &[Reads] = &[
    &[(8, Some(5)), (8, END)],
    &[(2, TWO), (2, TWO), (2, ONE), (2, END)],
];

/// Whether the reads are answered as they have to be, and give all of these bytes.
fn gives<S: Source>(
    alloc: Global,
    source: &mut S,
    reads: Reads,
    bytes: &[u8],
) -> Result<bool, AllocError> {
    let mut buffer = [0; 8];
    let mut given = Vec::new(alloc);
    for (room, wanted) in reads {
        let answer = source.read(&mut buffer[..*room.min(&8)]).ok();
        if answer != *wanted {
            return Ok(false);
        }
        given.extend_from_slice(&buffer[..answer.unwrap_or(0)])?;
    }
    Ok(given.as_slice() == bytes)
}

/// Whether each source over a slice, an empty one too, is read to its end.
fn slices_give_all(alloc: Global) -> Result<bool, AllocError> {
    for reads in SLICE_ROWS {
        if !gives(alloc, &mut SliceSource::new(&BYTES), reads, &BYTES)? {
            return Ok(false);
        }
    }
    gives(
        alloc,
        &mut SliceSource::new(&[]),
        &[(8, END), (8, END)],
        &[],
    )
}

/// The first row of a source in memory that isn't read so.
fn first_wrong(alloc: Global) -> Result<Option<usize>, AllocError> {
    for (place, (step, fail, reads)) in ROWS.iter().enumerate() {
        let mut source = MemSource::new(BYTES.to_vec(alloc)?, (*step).max(1), fail.to_vec(alloc)?);
        if !gives(alloc, &mut source, reads, &BYTES)? {
            return Ok(Some(place));
        }
    }
    Ok(None)
}

#[test]
fn sources_are_read_to_their_ends(rt: HostRuntime) -> Result<(), Fail> {
    let slices = slices_give_all(rt.alloc())?;
    let wrong = first_wrong(rt.alloc())?;
    assert!(rt; slices && wrong.is_none(), "{slices} {wrong:?}");
    Ok(())
}
