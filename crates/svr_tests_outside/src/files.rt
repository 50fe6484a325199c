use crate::disks::{gives, takes};
use std::fs;
use std::fs::Files;
use std::test::Fail;
use svr_edge::Disk;
use svr_host::FileDisk;

const PATH: &str = "svr_tests_outside.disk";

/// Whether a file that isn't there takes bytes over several calls.
fn takes_all<R: Files>(rt: &R) -> bool {
    let mut disk = FileDisk::at(rt, PATH);
    let is_empty = disk.len().ok() == Some(0);
    let is_written = takes(&mut disk, 0, b"abc") && takes(&mut disk, 3, b"defg");
    let is_over = takes(&mut disk, 1, b"XY") && disk.sync().is_ok();
    let is_read = gives(&mut disk, 0, b"aXYdefg") && gives(&mut disk, 2, b"Yde");
    // Neither is asked of the file, since it would go past its end.
    let is_inside = !gives(&mut disk, 6, b"gg") && !takes(&mut disk, 8, b"h");
    is_empty && is_written && is_over && is_read && is_inside
}

/// Whether another disk over the same file has these bytes, and takes more behind them.
fn gives_all<R: Files>(rt: &R) -> bool {
    let mut disk = FileDisk::at(rt, PATH);
    let has_length = disk.len().ok() == Some(7);
    let has_bytes = gives(&mut disk, 0, b"aXYdefg");
    has_length && has_bytes && takes(&mut disk, 5, b"123") && disk.sync().is_ok()
}

/// Whether all calls fail of a disk that isn't there: its path is that of a folder.
fn fails_always<R: Files>(rt: &R) -> bool {
    let mut disk = FileDisk::at(rt, ".");
    disk.len().is_err() && disk.sync().is_err() && disk.len().is_err()
}

#[test]
fn a_file_keeps_what_is_written(rt: HostRuntime) -> Result<(), Fail> {
    let _ = fs::remove_file(&rt, PATH);
    let takes_all = takes_all(&rt);
    let gives_all = gives_all(&rt);
    let bytes = fs::read(&rt, PATH)?;
    let is_file = bytes.as_slice() == b"aXYde123".as_slice();
    let fails_always = fails_always(&rt);
    fs::remove_file(&rt, PATH)?;
    assert!(rt;
        takes_all && gives_all && is_file && fails_always,
        "{takes_all} {gives_all} {is_file} {fails_always}"
    );
    Ok(())
}
