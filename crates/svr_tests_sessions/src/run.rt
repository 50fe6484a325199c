use crate::line::Setting;
use crate::play::FLUSH;
use std::alloc::{AllocError, Global};
use std::mem;
use std::num::NonZeroU32;
use svr_fakes::DiskCall;

/// What disks a run is made over.
#[derive(Clone, Copy)]
pub enum Over {
    /// One.
    Disk,
    /// Each image of a crash in the run before.
    Crashes,
    /// The disk that the run before left, cut to each length from one to another.
    Cuts(u64, u64),
}

/// What has to be written where so many changes are there.
#[derive(Drop)]
pub struct Answer {
    pub changes: u64,
    pub output: Vec<u8>,
}

/// A run of the program: what it is given, and what it has to come to.
#[derive(Drop)]
pub struct Run {
    /// Its number in the case, from 1.
    pub number: u64,
    pub words: Vec<String>,
    pub input: Vec<u8>,
    /// The most bytes of a read and of a write, where the run says them.
    pub read: Option<NonZeroU32>,
    pub write: Option<NonZeroU32>,
    /// The numbers of the calls that fail, as the source and the sink in memory take them.
    pub failing_reads: Vec<u64>,
    pub failing_calls: Vec<u64>,
    pub status: u8,
    pub output: Vec<u8>,
    /// How often the input has to be read, where the run says it.
    pub reads: Option<u32>,
    pub over: Over,
    /// The bytes of its disk at first, where that isn't the disk that the run before left.
    pub disk: Vec<u8>,
    pub has_same_disk: bool,
    pub failing_disk_calls: Vec<(DiskCall, u64)>,
    /// The bytes that its disk has to hold behind it, where the run says them.
    pub held: Option<Vec<u8>>,
    /// How often the disk has to be read, beside the reads of a run without input, and how often it may be read in all.
    pub disk_reads: Option<u32>,
    pub most_disk_reads: Option<u32>,
    /// What has to be written by the number of changes, for a run over the images of a crash.
    pub answers: Vec<Answer>,
    /// The number for which the output is being taken.
    changes: Option<u64>,
}

impl Run {
    /// A run that serves no input, and has to end well with no output.
    pub fn new(alloc: Global, number: u64) -> Result<Run, AllocError> {
        let mut run = Run {
            number,
            words: Vec::new(alloc),
            input: Vec::new(alloc),
            read: None,
            write: None,
            failing_reads: Vec::new(alloc),
            failing_calls: Vec::new(alloc),
            status: 0,
            output: Vec::new(alloc),
            reads: None,
            over: Over::Disk,
            disk: Vec::new(alloc),
            has_same_disk: false,
            failing_disk_calls: Vec::new(alloc),
            held: None,
            disk_reads: None,
            most_disk_reads: None,
            answers: Vec::new(alloc),
            changes: None,
        };
        run.set_words(alloc, "svr|serve")?;
        Ok(run)
    }

    /// Takes words with bars between; none, where there is no text.
    pub fn set_words(&mut self, alloc: Global, text: &str) -> Result<(), AllocError> {
        self.words.clear();
        if text.is_empty() {
            return Ok(());
        }
        for word in text.split('|') {
            self.words.push(String::from_str(alloc, word)?)?;
        }
        Ok(())
    }

    pub fn set(&mut self, setting: Setting) -> Result<(), AllocError> {
        match setting {
            Setting::Read(bytes) => self.read = Some(bytes),
            Setting::Write(bytes) => self.write = Some(bytes),
            Setting::FailRead(number) => self.failing_reads.push(number.get() as u64)?,
            Setting::FailWrite(number) => self.failing_calls.push(number.get() as u64)?,
            Setting::FailFlush(number) => self.failing_calls.push(FLUSH + number.get() as u64)?,
            Setting::Status(status) => self.status = status,
            Setting::Reads(count) => self.reads = Some(count),
            Setting::FailDisk(kind, number) => {
                self.failing_disk_calls.push((kind, number.get() as u64))?;
            }
            Setting::DiskReads(count) => self.disk_reads = Some(count),
            Setting::MostDiskReads(count) => self.most_disk_reads = Some(count),
        }
        Ok(())
    }

    /// Keeps the output so far for the number of changes that it was taken for, and takes the rest for another.
    pub fn set_changes(&mut self, alloc: Global, changes: Option<u64>) -> Result<(), AllocError> {
        if let Some(changes) = mem::replace(&mut self.changes, changes) {
            let output = mem::replace(&mut self.output, Vec::new(alloc));
            self.answers.push(Answer { changes, output })?;
        }
        Ok(())
    }
}
