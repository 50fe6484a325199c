ghost use Rattle.std.specs.Prelude.{◌≡◌, ◌⊎◌, ◌≤◌, ◌+◌, ◌^◌, ℕ, List, None, length, take, drop, IfOk, OnOk, OnErr};
ghost use Rattle.svr_edge.specs.Causes.{one_more};
ghost use Rattle.svr_edge.specs.Disk.{IsSettled, IsTornImage, Leaves, MayWrite, ReadCause, Reads, Stays, WriteCause, Writes, traced};
ghost use Rattle.svr_host.specs.FileView.{after_read, after_sync, after_write, file_laws, file_view};

use std::fs::{Files, OpenFile, OpenOptions};
use std::io;
use std::io::{Read, Seek, SeekFrom, Write};
use std::marker::Model;
use svr_edge::{Disk, Failed};

/// A disk over a file, which contracts see as its size and its counts of faults. It tells no content.
///
/// Where the file could not be opened each call fails.
#[derive(Drop)]
pub struct FileDisk<F: Read + Write + Seek + OpenFile + Drop> {
    file: Option<F>,
    size: u64,
    read_faults: u64,
    write_faults: u64,
}

impl<F: Read + Write + Seek + OpenFile + Drop> Model for FileDisk<F> {
    ghost use Rattle.svr_host.specs.FileView.{FileState};

    ghost Value = { FileState };

    ghost view = { λ d. record { size = d.size; read_faults = d.read_faults; write_faults = d.write_faults } };
}

/// Counts one more. The count stops at the end of `u64`.
fn raise(count: &mut u64)
    ensures more { count.new ≡ one_more count.old }
    ensures later { count.old ≤ count.new }
{
    *count = count.saturating_add(1);
}

/// Opens a file, which is made where it is missing, and takes its size.
fn open_file<R: Files>(rt: &R, path: &str) -> io::Result<(R::File, u64)> {
    let mut options = OpenOptions::new();
    let file = options.read(true).write(true).create(true).open(rt, path)?;
    let size = file.metadata()?.len();
    Ok((file, size))
}

impl<F: Read + Write + Seek + OpenFile + Drop> FileDisk<F> {
    /// The disk over the file of this path, which is made where it is missing.
    pub fn at<R: Files<File = F>>(rt: &R, path: &str) -> FileDisk<F>
        ensures faults { (result.read_faults ≡ 0) × (result.write_faults ≡ 0) }
        ensures tells_nothing { ((⟦<FileDisk<F> as Disk>⟧.view result).content ≡ None) × ((⟦<FileDisk<F> as Disk>⟧.view result).trace ≡ None) }
    {
        let (file, size) = match open_file(rt, path) {
            Ok((file, size)) => (Some(file), size),
            Err(_) => (None, 0),
        };
        FileDisk {
            file,
            size,
            read_faults: 0,
            write_faults: 0,
        }
    }
}

fn read_file<F: Read + Seek>(file: &mut F, at: u64, into: &mut [u8]) -> io::Result<()> {
    file.seek(SeekFrom::Start(at))?;
    file.read_exact(into)
}

fn write_file<F: Write + Seek>(file: &mut F, at: u64, bytes: &[u8]) -> io::Result<()> {
    file.seek(SeekFrom::Start(at))?;
    file.write_all(bytes)
}

/// Reads, and answers whether the file is there and the read succeeded.
fn reads<F: Read + Seek>(file: &mut Option<F>, at: u64, into: &mut [u8]) -> bool {
    match file {
        Some(file) => read_file(file, at, into).is_ok(),
        None => false,
    }
}

/// Writes, and answers whether the file is there and the write succeeded.
fn writes<F: Write + Seek>(file: &mut Option<F>, at: u64, bytes: &[u8]) -> bool {
    match file {
        Some(file) => write_file(file, at, bytes).is_ok(),
        None => false,
    }
}

/// Has the system write all that it keeps back, and answers whether the file is there and that succeeded.
fn syncs<F: OpenFile>(file: &Option<F>) -> bool {
    match file {
        Some(file) => file.sync_data().is_ok(),
        None => false,
    }
}

impl<F: Read + Write + Seek + OpenFile + Drop> Disk for FileDisk<F> {
    ghost view = { file_view };

    ghost laws = { file_laws };

    /// The size is the one that the file had when it was opened, or the end of the furthest write since.
    fn len(&mut self) -> Result<u64, Failed>
        ensures size { IfOk result (λ n. n ≡ (file_view self.old).size) }
        ensures stays { Stays (file_view self.old) (file_view self.new) }
        ensures trace { (file_view self.new).trace ≡ (file_view self.old).trace }
        ensures cause { ReadCause (file_view self.old) (file_view self.new) result }
        ensures next { self.new ≡ after_read self.old result }
    {
        if self.file.is_some() {
            return Ok(self.size);
        }
        raise(&mut self.read_faults);
        Err(Failed)
    }

    fn read_at(&mut self, at: u64, into: &mut [u8]) -> Result<(), Failed>
        requires { at + length into.old ≤ (file_view self.old).size }
        ensures bytes { OnOk result ((bytes : List ℕ) → Reads (file_view self.old) bytes → into.new ≡ take (length into.old) (drop at bytes)) }
        ensures stays { Stays (file_view self.old) (file_view self.new) }
        ensures trace { OnOk result ((file_view self.new).trace ≡ traced (file_view self.old).trace at (length into.old)) }
        ensures trace_failed { OnErr result (((file_view self.new).trace ≡ (file_view self.old).trace)
            ⊎ ((file_view self.new).trace ≡ traced (file_view self.old).trace at (length into.old))) }
        ensures cause { ReadCause (file_view self.old) (file_view self.new) result }
        ensures next { self.new ≡ after_read self.old result }
    {
        if reads(&mut self.file, at, into) {
            return Ok(());
        }
        raise(&mut self.read_faults);
        Err(Failed)
    }

    fn write_at(&mut self, at: u64, bytes: &[u8]) -> Result<(), Failed>
        requires inside { at ≤ (file_view self.old).size }
        requires fits { at + length bytes.now ≤ 2 ^ 40 }
        ensures ok { OnOk result (Writes (file_view self.old) (file_view self.new) at bytes.now) }
        ensures err { OnErr result (MayWrite (file_view self.old) (file_view self.new) at (length bytes.now)) }
        ensures images { Leaves (file_view self.old) (file_view self.new) (IsTornImage (file_view self.old) at (length bytes.now)) }
        ensures cause { WriteCause (file_view self.old) (file_view self.new) result }
        ensures next { self.new ≡ after_write self.old (at + length bytes.now) result }
    {
        if writes(&mut self.file, at, bytes) {
            self.size = self.size.max(at + bytes.len() as u64);
            return Ok(());
        }
        raise(&mut self.write_faults);
        Err(Failed)
    }

    fn sync(&mut self) -> Result<(), Failed>
        ensures settled { OnOk result (IsSettled (file_view self.new)) }
        ensures stays { Stays (file_view self.old) (file_view self.new) }
        ensures cause { WriteCause (file_view self.old) (file_view self.new) result }
        ensures next { self.new ≡ after_sync self.old result }
    {
        if syncs(&self.file) {
            return Ok(());
        }
        raise(&mut self.write_faults);
        Err(Failed)
    }
}
