use crate::piece::{LineEnd, Piece};
use std::num::NonZeroU32;
use svr_fakes::DiskCall;

/// A line of a script.
#[derive(Clone, Copy)]
pub enum Line<'a> {
    /// Nothing, or a comment.
    Blank,
    /// A name, and the text that it stands for.
    Text(&'a str, &'a str),
    /// What the case is cut into, each time that it is played: numbers of bytes with blanks between.
    Pieces(&'a str),
    /// The words of the command line, with bars between.
    Words(&'a str),
    Input(Piece<'a>),
    Output(Piece<'a>),
    /// Bytes of the disk at first.
    Disk(Piece<'a>),
    /// Bytes that the disk has to hold behind the run.
    Holds(Piece<'a>),
    /// The disk is as the run before left it.
    SameDisk,
    Setting(Setting),
    /// What is written below is what has to be written where so many changes are there.
    Changes(u64),
    /// The lines above are a run.
    Run,
    /// The lines above are a run over each image of a crash in the run before.
    Crashes,
    /// The lines above are a run over the disk of the run before, cut to each length from one to another.
    Cuts(u64, u64),
}

/// How a run is made, or what it has to come to.
#[derive(Clone, Copy)]
pub enum Setting {
    /// The most bytes that a read gives.
    Read(NonZeroU32),
    /// The most bytes that a write takes.
    Write(NonZeroU32),
    /// The number of a call that fails, from 1.
    FailRead(NonZeroU32),
    FailWrite(NonZeroU32),
    FailFlush(NonZeroU32),
    /// The status that the program has to end with.
    Status(u8),
    /// How often the input has to be read.
    Reads(u32),
    /// The number of a call of the disk that fails, from 1, each kind apart.
    FailDisk(DiskCall, NonZeroU32),
    /// How often the disk has to be read, beside the reads of a run without input.
    DiskReads(u32),
    /// How often the disk may be read.
    MostDiskReads(u32),
}

/// The line that a text is, if it is one.
pub fn read_line(text: &str) -> Option<Line<'_>> {
    if text.is_empty() || text.starts_with('#') {
        return Some(Line::Blank);
    }
    let (word, rest) = text.split_once(' ').unwrap_or((text, ""));
    if let Some(kind) = word.strip_prefix('>') {
        return Some(Line::Input(read_piece(kind, rest)?));
    }
    if let Some(kind) = word.strip_prefix('<') {
        return Some(Line::Output(read_piece(kind, rest)?));
    }
    if let Some(kind) = word.strip_prefix('@') {
        return Some(Line::Disk(read_piece(kind, rest)?));
    }
    if let Some(kind) = word.strip_prefix('=') {
        return Some(Line::Holds(read_piece(kind, rest)?));
    }
    match word {
        "text" => read_text(rest),
        "pieces" => Some(Line::Pieces(rest)),
        "words" => Some(Line::Words(rest)),
        "cuts" => read_cuts(rest),
        "changes" => Some(Line::Changes(rest.parse().ok()?)),
        _ if rest.is_empty() => read_word(word),
        _ => Some(Line::Setting(read_setting(word, rest)?)),
    }
}

fn read_word(word: &str) -> Option<Line<'_>> {
    match word {
        "run" => Some(Line::Run),
        "same-disk" => Some(Line::SameDisk),
        "crashes" => Some(Line::Crashes),
        _ => None,
    }
}

fn read_cuts(rest: &str) -> Option<Line<'_>> {
    let (from, to) = rest.split_once(' ')?;
    Some(Line::Cuts(from.parse().ok()?, to.parse().ok()?))
}

fn read_text(rest: &str) -> Option<Line<'_>> {
    let (name, text) = rest.split_once(' ')?;
    Some(Line::Text(name, text))
}

fn read_piece<'a>(kind: &str, text: &'a str) -> Option<Piece<'a>> {
    match kind {
        "" => Some(Piece::Text(text, LineEnd::LineFeed)),
        "r" => Some(Piece::Text(text, LineEnd::CarriageReturnLineFeed)),
        "-" => Some(Piece::Text(text, LineEnd::Nothing)),
        "~" => Some(Piece::Filled(text, LineEnd::LineFeed)),
        "-~" => Some(Piece::Filled(text, LineEnd::Nothing)),
        "#" => Some(Piece::Numbered(text)),
        "x" => Some(Piece::Bytes(text)),
        _ => None,
    }
}

fn read_setting(word: &str, number: &str) -> Option<Setting> {
    match word {
        "read" => Some(Setting::Read(number.parse().ok()?)),
        "write" => Some(Setting::Write(number.parse().ok()?)),
        "fail-read" => Some(Setting::FailRead(number.parse().ok()?)),
        "fail-write" => Some(Setting::FailWrite(number.parse().ok()?)),
        "fail-flush" => Some(Setting::FailFlush(number.parse().ok()?)),
        "status" => Some(Setting::Status(number.parse().ok()?)),
        "reads" => Some(Setting::Reads(number.parse().ok()?)),
        "disk-reads" => Some(Setting::DiskReads(number.parse().ok()?)),
        "most-disk-reads" => Some(Setting::MostDiskReads(number.parse().ok()?)),
        _ => Some(Setting::FailDisk(read_disk_call(word)?, number.parse().ok()?)),
    }
}

fn read_disk_call(word: &str) -> Option<DiskCall> {
    match word {
        "fail-disk-len" => Some(DiskCall::Len),
        "fail-disk-read" => Some(DiskCall::Read),
        "fail-disk-write" => Some(DiskCall::Write),
        "fail-disk-sync" => Some(DiskCall::Sync),
        _ => None,
    }
}
