use crate::play::{Outcome, bytes_of, play, play_part};
use crate::run::Run;
use std::alloc::{AllocError, Global};
use std::num::NonZeroU32;

/// A run over one disk, the bytes of its disk at first, and what it came to.
#[derive(Drop)]
pub struct Played<'a> {
    pub run: &'a Run,
    pub bytes: Vec<u8>,
    pub outcome: Outcome,
}

/// Makes a run over its disk, which may be the one that the run before left.
pub fn play_over_disk<'a>(
    alloc: Global,
    run: &'a Run,
    before: Option<&Played<'a>>,
    piece: NonZeroU32,
) -> Result<Played<'a>, AllocError> {
    let bytes = match before {
        Some(before) if run.has_same_disk => bytes_of(alloc, &before.outcome.disk)?,
        _ => run.disk.clone()?,
    };
    let outcome = play(alloc, run, piece, bytes.clone()?)?;
    Ok(Played {
        run,
        bytes,
        outcome,
    })
}

impl<'a> Played<'a> {
    /// What is wrong with the run, if anything is.
    pub fn wrong(&self, alloc: Global, piece: NonZeroU32) -> Result<Option<String>, AllocError> {
        if !self.outcome.is_wanted_by(self.run) {
            return Ok(Some(self.outcome.difference(alloc, self.run, piece)?));
        }
        let number = self.run.number;
        if !self.holds_as_wanted(alloc)? {
            let bytes = bytes_of(alloc, &self.outcome.disk)?;
            let bytes = hexadecimal(alloc, bytes.as_slice())?;
            let bytes = bytes.as_str();
            let text = format!(in alloc;
                "run {number} in pieces of {piece} left other bytes on the disk than wanted:{bytes}"
            )?;
            return Ok(Some(text));
        }
        if !self.reads_disk_as_wanted(alloc, piece)? {
            let reads = self.outcome.disk.reads().len();
            let text = format!(in alloc;
                "run {number} in pieces of {piece} read the disk {reads} times"
            )?;
            return Ok(Some(text));
        }
        Ok(None)
    }

    /// Whether the disk holds the bytes that it has to.
    fn holds_as_wanted(&self, alloc: Global) -> Result<bool, AllocError> {
        match &self.run.held {
            Some(held) => Ok(bytes_of(alloc, &self.outcome.disk)?.as_slice() == held.as_slice()),
            None => Ok(true),
        }
    }

    /// Whether the disk was read as often as it has to be, and may be.
    fn reads_disk_as_wanted(&self, alloc: Global, piece: NonZeroU32) -> Result<bool, AllocError> {
        let reads = self.outcome.disk.reads().len() as u64;
        let most = self.run.most_disk_reads.map_or(u64::MAX, u64::from);
        let Some(wanted) = self.run.disk_reads else {
            return Ok(reads <= most);
        };
        let bytes = self.bytes.clone()?;
        let opened = play_part(alloc, self.run, piece, bytes, &[], None)?;
        let opening = opened.disk.reads().len() as u64;
        Ok(reads <= most && reads.saturating_sub(opening) == u64::from(wanted))
    }

    /// Makes a run over this one's disk, cut to each length from one to another, and answers what is wrong, if anything is.
    pub fn play_cuts(
        &self,
        alloc: Global,
        run: &Run,
        piece: NonZeroU32,
        from: u64,
        to: u64,
    ) -> Result<Option<String>, AllocError> {
        let bytes = bytes_of(alloc, &self.outcome.disk)?;
        let most = bytes.len() as u64;
        if from > to || to > most {
            return Ok(Some(format!(in alloc; "the disk has {most} bytes")?));
        }
        for length in from..=to {
            let front = bytes.as_slice().get(..length as usize).unwrap_or(&[]);
            let outcome = play(alloc, run, piece, front.to_vec(alloc)?)?;
            if !outcome.is_wanted_by(run) {
                let what = outcome.difference(alloc, run, piece)?;
                let what = what.as_str();
                return Ok(Some(format!(in alloc; "cut to {length} bytes, {what}")?));
            }
        }
        Ok(None)
    }
}

/// Bytes in hexadecimal, with a blank in front of each.
fn hexadecimal(alloc: Global, bytes: &[u8]) -> Result<String, AllocError> {
    let mut text = String::new(alloc);
    for byte in bytes {
        let digits = format!(in alloc; " {byte:02x}")?;
        text.push_str(digits.as_str())?;
    }
    Ok(text)
}
