ghost use Rattle.std.specs.Prelude.{◌≡◌, ◌≢◌, ℕ, ◌+◌, ◌-◌, ◌<◌, ◌≤◌, [], true, false, List, take, length, Ok, IfOk, OnOk, OnErr, IfSome, IfNone, IsErrOf};
ghost use Rattle.std.specs.Io.KnownBytes.{IsAtEnd, prepend_known};
ghost use Rattle.svr_lines.specs.Layout.Feeds.{NoFeed, FirstFeed};
ghost use Rattle.svr_lines.specs.Lines.{IsUnbroken};
ghost use Rattle.svr_lines.specs.Pieces.{IsLast, TakesPiece, NextPiece};
ghost use Rattle.svr_lines.specs.Reading.{new_reading, taken_bytes, KnowsEnd, Reads};
ghost use Rattle.svr_lines.specs.Stops.{HasStopCauses, StopsInLine};
ghost use Rattle.svr_lines.specs.Layout.Steps.{Passes, Fills, EndsLine, TakesLine, StopsUnbroken, is_blank_piece};

mod blocks;

use crate::buffer::{ROOM, is_blank_line, line_feed, make_room, read_at};
use std::alloc::Global;
use std::marker::Model;
use svr_edge::{Failed, Memory, Source};

/// The longest line that is handed out, in bytes, without its line feed.
pub const LINE_BYTES: usize = 1_048_576;

/// The longest block that is handed out, in bytes.
pub const BLOCK_BYTES: usize = 8_388_608;

/// What comes next in the input.
#[derive(Clone, Copy, Debug, PartialEq, Eq)]
pub enum Piece {
    /// A line that isn't blank, which `Lines::text` gives.
    Line,
    /// A line of more than `LINE_BYTES` bytes, which was dropped.
    TooLong,
    /// Nothing: the input was read to its end.
    End,
}

/// How a block of bytes ended.
#[derive(Clone, Copy, Debug, PartialEq, Eq)]
pub enum BlockEnd {
    /// It was taken, and `Lines::block_bytes` gives it.
    Whole,
    /// It has more than `BLOCK_BYTES` bytes, and was dropped.
    Dropped,
    /// The input ended before the block did.
    Cut,
}

/// Why no piece can be told.
#[derive(Clone, Copy, Debug, PartialEq, Eq)]
pub enum InputStop {
    /// The source failed.
    Input,
    /// As many bytes were taken as may be.
    Bytes,
}

/// Reads a source line by line, or by counted blocks, in pieces of any size, into room that is taken once.
#[derive(Drop)]
pub struct Lines {
    buffer: Vec<u8>,
    start: usize,
    end: usize,
    line_start: usize,
    line_end: usize,
    block: Vec<u8>,
    handed: u64,
    limit: u64,
    ended: bool,
}

impl Model for Lines {
    ghost use Rattle.svr_lines.specs.Reading.{Reading};

    ghost Value = { Reading };

    ghost use Rattle.svr_lines.specs.Layout.Buffer.{reading, IsInBuffer};

    ghost view = { reading };

    ghost invariant = { IsInBuffer };
}

impl Lines {
    /// A reader that takes at most `limit` bytes. It takes the room for lines and for a block here, and none later.
    pub fn new(alloc: Global, limit: u64) -> Result<Lines, Memory>
        ensures { IfOk result (λ lines. lines ≡ new_reading limit) }
    {
        let buffer = vec![in alloc; 0; ROOM]?;
        let block = Vec::with_capacity(alloc, BLOCK_BYTES)?;
        Ok(Lines {
            buffer,
            start: 0,
            end: 0,
            line_start: 0,
            line_end: 0,
            block,
            handed: 0,
            limit,
            ended: false,
        })
    }

    /// The line that was handed out last. The next call of `line` or `block` may lose it.
    pub fn text(&self) -> &[u8]
        ensures { result.now ≡ self.now.text }
    {
        &self.buffer[self.line_start..self.line_end]
    }

    /// How many bytes were taken from the source.
    pub fn taken(&self) -> u64
        ensures { result ≡ taken_bytes self.now }
    {
        self.handed + (self.end - self.start) as u64
    }

    /// How many bytes were taken and aren't handed out.
    fn ahead(&self) -> usize
        ensures { result ≡ length self.now.ahead }
    {
        self.end - self.start
    }

    /// Whether the source was seen at its end, and nothing is ahead.
    fn has_ended(&self) -> bool
        ensures ended { result ≡ self.now.ended }
        ensures few { taken_bytes self.now ≤ self.now.limit }
    {
        self.ended
    }

    /// Notes that the source was seen at its end.
    fn note_end(&mut self)
        ensures { self.new ≡ record self.old { ended = true } }
    {
        self.ended = true;
    }

    /// Passes over the next `count` bytes.
    fn pass_over(&mut self, count: usize)
        requires { count ≤ length self.old.ahead }
        ensures passes { Passes self.old self.new count }
        ensures text { self.new.text ≡ self.old.text }
        ensures block { self.new.block ≡ self.old.block }
        ensures ended { self.new.ended ≡ self.old.ended }
    {
        self.start += count;
        self.handed += count as u64;
    }

    /// Hands out the next `count` bytes as the line, and passes over `over` bytes behind it.
    fn hand_out(&mut self, count: usize, over: usize)
        requires { count + over ≤ length self.old.ahead }
        ensures passes { Passes self.old self.new (count + over) }
        ensures text { self.new.text ≡ take count self.old.ahead }
        ensures ended { self.new.ended ≡ self.old.ended }
    {
        self.line_start = self.start;
        self.line_end = self.start + count;
        self.pass_over(count + over);
    }

    /// The first line feed at or behind a place of what is ahead.
    fn line_feed_from(&self, from: usize) -> Option<usize>
        requires { from ≤ length self.now.ahead }
        ensures found { IfSome result (FirstFeed self.now.ahead from) }
        ensures none { IfNone result (NoFeed self.now.ahead from (length self.now.ahead)) }
    {
        match line_feed(&self.buffer[self.start + from..self.end]) {
            Some(at) => Some(from + at),
            None => None,
        }
    }

    /// Reads more bytes behind what is ahead, at least one where the input isn't at its end. The line is lost.
    fn fill<S: Source>(&mut self, input: &mut S) -> Result<usize, InputStop>
        requires { length self.old.ahead ≤ LINE_BYTES }
        ensures fills { (bytes : List ℕ)
            × Fills (S.left input.old) (S.left input.new) self.old self.new result bytes }
        ensures block { self.new.block ≡ self.old.block }
        ensures ended { self.new.ended ≡ self.old.ended }
        ensures end { result ≡ Ok 0 → IsAtEnd (S.left input.new) }
        ensures before_limit { result ≡ Ok 0 → taken_bytes self.new < self.new.limit }
        ensures causes { HasStopCauses (S.faults input.old) (S.faults input.new) self.new result }
    {
        let ahead = self.end - self.start;
        let left = self.limit - (self.handed + ahead as u64);
        if left == 0 {
            return Err(InputStop::Bytes);
        }
        let start = make_room(&mut self.buffer, self.start, self.end);
        self.start = start;
        self.end = start + ahead;
        let room = (self.buffer.len() - self.end).min(left as usize);
        match read_at(input, &mut self.buffer, self.end, room) {
            Ok(count) => {
                self.end += count;
                Ok(count)
            }
            Err(Failed) => Err(InputStop::Input),
        }
    }

    /// Reads more bytes where none are ahead, and notes the end of the input, behind which it doesn't read.
    fn read_on<S: Source>(&mut self, input: &mut S) -> Result<usize, InputStop>
        requires none { self.old.ahead ≡ [] }
        requires known_end { KnowsEnd self.old (S.left input.old) }
        ensures fills { (bytes : List ℕ)
            × Fills (S.left input.old) (S.left input.new) self.old self.new result bytes }
        ensures block { self.new.block ≡ self.old.block }
        ensures end { result ≡ Ok 0 → IsLast self.new (S.left input.new) }
        ensures open_end { IfOk result (λ count. 0 < count → self.new.ended ≡ false) }
        ensures after_end { self.old.ended ≡ true → result ≡ Ok 0 }
        ensures before_limit { self.old.ended ≡ false → result ≡ Ok 0 → taken_bytes self.new < self.new.limit }
        ensures causes { HasStopCauses (S.faults input.old) (S.faults input.new) self.new result }
    {
        if self.has_ended() {
            return Ok(0);
        }
        let count = self.fill(input)?;
        if count == 0 {
            self.note_end();
        }
        Ok(count)
    }

    /// Hands out the line that a line feed ends.
    fn end_line(&mut self, at: usize) -> Piece
        requires { FirstFeed self.old.ahead 0 at }
        ensures line { result ≡ Piece.Line → at ≤ LINE_BYTES }
        ensures too_long { result ≡ Piece.TooLong → LINE_BYTES < at }
        ensures not_end { result ≢ Piece.End }
        ensures text { self.new.text ≡ take at self.old.ahead }
        ensures passes { Passes self.old self.new (at + 1) }
        ensures ended { self.new.ended ≡ self.old.ended }
    {
        self.hand_out(at, 1);
        if at > LINE_BYTES {
            Piece::TooLong
        } else {
            Piece::Line
        }
    }

    /// Hands out all that is ahead as the last line, if it has a byte.
    fn last_line(&mut self) -> Piece
        requires { length self.old.ahead ≤ LINE_BYTES }
        ensures line { result ≡ Piece.Line → 0 < length self.old.ahead }
        ensures end { result ≡ Piece.End → self.old.ahead ≡ [] }
        ensures not_long { result ≢ Piece.TooLong }
        ensures text { self.new.text ≡ self.old.ahead }
        ensures passes { Passes self.old self.new (length self.old.ahead) }
        ensures ended { self.new.ended ≡ true }
    {
        let count = self.ahead();
        self.hand_out(count, 0);
        self.note_end();
        if count == 0 { Piece::End } else { Piece::Line }
    }

    /// Drops a line that began with what is ahead, to its end.
    fn drop_line<S: Source>(&mut self, input: &mut S) -> Result<(), InputStop>
        requires unbroken { IsUnbroken self.old.ahead }
        requires some { 0 < length self.old.ahead }
        requires open { self.old.ended ≡ false }
        ensures dropped { OnOk result ((line gone bytes : List ℕ)
            × Reads (S.left input.old) (S.left input.new) self.old self.new gone bytes
            × IsUnbroken line × (length self.old.ahead ≤ length line)
            × EndsLine gone line self.new (S.left input.new)) }
        ensures stop { OnErr result ((bytes : List ℕ)
            × StopsUnbroken (S.left input.old) (S.left input.new) self.old self.new bytes) }
        ensures before_limit { OnOk result (self.new.ended ≡ true → taken_bytes self.new < self.new.limit) }
        ensures causes { HasStopCauses (S.faults input.old) (S.faults input.new) self.new result }
    {
        loop {
            let count = self.ahead();
            self.pass_over(count);
            if self.read_on(input)? == 0 {
                return Ok(());
            }
            if let Some(at) = self.line_feed_from(0) {
                self.pass_over(at + 1);
                return Ok(());
            }
        }
    }

    /// Takes the next line, blank or not, or drops it where it is too long.
    fn next_line<S: Source>(&mut self, input: &mut S) -> Result<Piece, InputStop>
        requires { self.old.ended ≡ false }
        ensures line { IfOk result (λ piece. (gone bytes : List ℕ)
            × Reads (S.left input.old) (S.left input.new) self.old self.new gone bytes
            × TakesLine piece gone self.new (S.left input.new)) }
        ensures stop { OnErr result ((bytes : List ℕ)
            × StopsUnbroken (S.left input.old) (S.left input.new) self.old self.new bytes) }
        ensures before_limit { OnOk result (self.new.ended ≡ true → taken_bytes self.new < self.new.limit) }
        ensures causes { HasStopCauses (S.faults input.old) (S.faults input.new) self.new result }
    {
        let mut clean = 0;
        loop {
            if let Some(at) = self.line_feed_from(clean) {
                return Ok(self.end_line(at));
            }
            clean = self.ahead();
            if clean > LINE_BYTES {
                self.drop_line(input)?;
                return Ok(Piece::TooLong);
            }
            if self.fill(input)? == 0 {
                return Ok(self.last_line());
            }
        }
    }

    /// Whether a piece is a blank line, which is passed over.
    fn skips(&self, piece: Piece) -> bool
        ensures { result ≡ is_blank_piece piece self.now.text }
    {
        match piece {
            Piece::Line => is_blank_line(self.text()),
            Piece::TooLong | Piece::End => false,
        }
    }

    /// Takes the next line that isn't blank, or passes over it where it is too long. A line ends with a line feed or
    /// with the input. After a stop the reader is spent, and is only dropped: a part of a line may be lost.
    pub fn line<S: Source>(&mut self, input: &mut S) -> Result<Piece, InputStop>
        requires { KnowsEnd self.old (S.left input.old) }
        ensures piece { IfOk result (λ piece. (gone bytes : List ℕ)
            × Reads (S.left input.old) (S.left input.new) self.old self.new gone bytes
            × TakesPiece piece gone self.new (S.left input.new)) }
        ensures next { IfOk result (λ piece. NextPiece piece self.new.text
            (prepend_known self.old.ahead (S.left input.old))
            (prepend_known self.new.ahead (S.left input.new))) }
        ensures stop { OnErr result ((bytes : List ℕ)
            × StopsInLine (S.left input.old) (S.left input.new) self.old self.new bytes) }

        // Behind the end that was seen there is nothing.
        ensures known_end { OnOk result (KnowsEnd self.new (S.left input.new)) }
        ensures after_end { self.old.ended ≡ true → result ≡ Ok Piece.End }

        // Each line takes at least a byte, and no more are taken than may be, which is tested before the end.
        ensures progress { IfOk result (λ piece. piece ≢ Piece.End → self.old.handed < self.new.handed) }
        ensures before_limit { OnOk result (self.old.ended ≡ false → self.new.ended ≡ true
            → taken_bytes self.new < self.new.limit) }
        ensures causes { HasStopCauses (S.faults input.old) (S.faults input.new) self.new result }
    {
        while !self.has_ended() {
            let piece = self.next_line(input)?;
            if !self.skips(piece) {
                return Ok(piece);
            }
        }
        Ok(Piece::End)
    }
}
