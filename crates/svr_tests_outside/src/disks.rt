use std::alloc::{AllocError, Global};
use std::test::Fail;
use svr_edge::Disk;
use svr_fakes::{DiskCall, FlipDisk, MemDisk, Torn};

/// Whether these bytes are read from a place on. A read that goes past the end is not made, and gives nothing.
pub fn gives<D: Disk>(disk: &mut D, at: u64, wanted: &[u8]) -> bool {
    let mut buffer = [0; 16];
    let into = &mut buffer[..wanted.len().min(16)];
    let Ok(size) = disk.len() else {
        return false;
    };
    if at > size || into.len() as u64 > size - at || disk.read_at(at, into).is_err() {
        return false;
    }
    &*into == wanted
}

/// Whether bytes are written from a place on. A write that begins behind the end is not made.
pub fn takes<D: Disk>(disk: &mut D, at: u64, bytes: &[u8]) -> bool {
    let Ok(size) = disk.len() else {
        return false;
    };
    at <= size && at <= 1 << 20 && bytes.len() <= 16 && disk.write_at(at, bytes).is_ok()
}

/// A call of a disk, and whether it succeeds. A read and a write look at the length first.
#[derive(Clone, Copy)]
enum Call {
    Len(u64),
    Gives(u64, &'static [u8], bool),
    Takes(u64, &'static [u8], bool),
    Syncs(bool),
}

use Call::{Gives, Len, Syncs, Takes};

const BYTES: &[u8] = b"abcdef";

/// The calls that fail.
const FAIL: &[(DiskCall, u64)] = &[
    (DiskCall::Write, 2),
    (DiskCall::Sync, 1),
    (DiskCall::Read, 3),
    (DiskCall::Len, 9),
    (DiskCall::Len, 1 << 32),
];

const CALLS: &[Call] = &[
    Takes(4, b"WXYZ", true),
    Takes(1, b"MN", false),
    Syncs(false),
    Syncs(true),
    Gives(0, b"abcdWXYZ", true),
    Gives(7, b"ZZ", false),
    Gives(8, b"", true),
    Gives(5, b"XY", false),
    Gives(5, b"XY", true),
    Len(8),
    Gives(5, b"XY", false),
];

/// What a crash after so many of the calls leaves.
const IMAGES: &[(u64, Torn, &[u8])] = &[
    (0, Torn::Old, b"abcdef"),
    (0, Torn::New, b"abcdef"),
    (1, Torn::Mixed(1), b"abcdef"),
    (2, Torn::Old, b"abcdef"),
    (2, Torn::New, b"abcdWXYZ"),
    (2, Torn::Mixed(0), b"abcdW\x07\0Z"),
    (2, Torn::Mixed(1), b"abcd\x07fY\x07"),
    (2, Torn::Mixed(2), b"abcdeX\x07\0"),
    (2, Torn::Mixed(255), b"abcdW\x07\0Z"),
    (4, Torn::Old, b"abcdef"),
    (4, Torn::New, b"aMNdWXYZ"),
    (4, Torn::Mixed(0), b"aM\x07dW\x07\0Z"),
    (5, Torn::New, b"aMNdWXYZ"),
    (6, Torn::Old, b"abcdWXYZ"),
    (6, Torn::New, b"abcdWXYZ"),
    (6, Torn::Mixed(2), b"abcdWXYZ"),
];

/// The reads, the one that failed among them.
const READS: &[(u64, u64)] = &[(0, 8), (8, 0), (5, 2), (5, 2)];

/// The place of the first call that a disk doesn't answer so.
fn first_wrong<D: Disk>(disk: &mut D) -> Option<usize> {
    for (place, call) in CALLS.iter().enumerate() {
        let is_right = match call {
            Len(wanted) => disk.len().ok() == Some(*wanted),
            Gives(at, bytes, wanted) => gives(disk, *at, bytes) == *wanted,
            Takes(at, bytes, wanted) => takes(disk, *at, bytes) == *wanted,
            Syncs(wanted) => disk.sync().is_ok() == *wanted,
        };
        if !is_right {
            return Some(place);
        }
    }
    None
}

/// The place of the first image that a crash doesn't leave.
fn first_wrong_image(alloc: Global, disk: &MemDisk) -> Option<usize> {
    for (place, (calls, torn, wanted)) in IMAGES.iter().enumerate() {
        if *calls > disk.calls() {
            return Some(place);
        }
        let is_right = match disk.crash(alloc, *calls, *torn) {
            Ok(image) => image.as_slice() == *wanted,
            Err(_) => false,
        };
        if !is_right {
            return Some(place);
        }
    }
    None
}

/// Whether of two calls of each kind the one fails that was asked to.
fn fails_once(disk: &mut MemDisk) -> bool {
    disk.fail_next(DiskCall::Len);
    let lens = disk.len().is_err() && disk.len().is_ok();
    disk.fail_next(DiskCall::Read);
    let reads = !gives(disk, 0, b"a") && gives(disk, 0, b"a");
    disk.fail_next(DiskCall::Write);
    let writes = !takes(disk, 0, b"q") && gives(disk, 0, b"a") && takes(disk, 0, b"q");
    disk.fail_next(DiskCall::Sync);
    let syncs = disk.sync().is_err() && disk.sync().is_ok();
    lens && reads && writes && syncs && gives(disk, 0, b"q")
}

fn mem_disk(alloc: Global) -> Result<MemDisk, AllocError> {
    Ok(MemDisk::new(BYTES.to_vec(alloc)?, FAIL.to_vec(alloc)?))
}

/// A disk of which no call fails.
fn whole_disk(alloc: Global) -> Result<MemDisk, AllocError> {
    Ok(MemDisk::new(BYTES.to_vec(alloc)?, Vec::new(alloc)))
}

/// Whether one byte is given inverted from the read on that was asked for, and no other.
fn flips(disk: MemDisk) -> bool {
    let mut disk = FlipDisk::new(disk);
    disk.flip(2, 1);
    let is_waiting = gives(&mut disk, 0, b"abcdef");
    let is_flipped = gives(&mut disk, 0, b"ab\x9cdef") && gives(&mut disk, 2, b"\x9c");
    let is_alone = gives(&mut disk, 0, b"ab") && gives(&mut disk, 3, b"def");
    disk.flip(0, 0);
    let is_last = gives(&mut disk, 0, b"\x9ebcdef");
    let is_written = takes(&mut disk, 0, b"z") && gives(&mut disk, 0, b"\x85bcdef");
    is_waiting && is_flipped && is_alone && is_last && is_written && disk.sync().is_ok()
}

#[test]
fn a_disk_keeps_its_calls_and_images(rt: HostRuntime) -> Result<(), Fail> {
    let mut disk = mem_disk(rt.alloc())?;
    let wrong = first_wrong(&mut disk);
    let wrong_image = first_wrong_image(rt.alloc(), &disk);
    let has_reads = disk.reads() == READS;
    let is_whole = wrong.is_none() && wrong_image.is_none() && has_reads;
    assert!(rt; is_whole, "{wrong:?} {wrong_image:?} {has_reads}");
    Ok(())
}

#[test]
fn a_disk_fails_and_flips_where_it_is_asked_to(rt: HostRuntime) -> Result<(), Fail> {
    let fails_once = fails_once(&mut whole_disk(rt.alloc())?);
    let flips = flips(whole_disk(rt.alloc())?);
    assert!(rt; fails_once && flips, "{fails_once} {flips}");
    Ok(())
}
