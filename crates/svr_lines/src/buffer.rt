ghost use Rattle.std.specs.Prelude.{◌≡◌, ◌+◌, ◌-◌, ◌<◌, ◌≤◌, ◌++◌, take, length, vec_len, vec_capacity, IfOk, OnErr, IfSome, IfNone, MatchResult};
ghost use Rattle.std.specs.List.{slice_range, list_all};
ghost use Rattle.std.specs.Io.KnownBytes.{Consumes, IsAtEnd, Keeps};
ghost use Rattle.svr_edge.specs.Causes.{Rose};
ghost use Rattle.svr_lines.specs.Lines.{is_blank};
ghost use Rattle.svr_lines.specs.Layout.Feeds.{NoFeed, FirstFeed};

use crate::lines::LINE_BYTES;
use memchr::memchr;
use svr_edge::{Failed, Source};

/// The room for what was read: a line of the greatest length, and as much behind it.
pub(crate) const ROOM: usize = 2 * LINE_BYTES;

/// Moves the bytes from `start` up to `end` to the front.
fn move_to_front(buffer: &mut [u8], start: usize, end: usize)
    requires order { start ≤ end }
    requires within { end ≤ length buffer.old }
    requires apart { end - start ≤ start }
    ensures { take (end - start) buffer.new ≡ slice_range buffer.old start end }
{
    let length = end - start;
    let (front, rest) = buffer.split_at_mut(start);
    front[..length].copy_from_slice(&rest[..length]);
}

/// Makes room behind the bytes from `start` up to `end`, and answers where they start now.
pub(crate) fn make_room(buffer: &mut Vec<u8>, start: usize, end: usize) -> usize
    requires order { start ≤ end }
    requires within { end ≤ vec_len buffer.old }
    requires few { end - start ≤ LINE_BYTES }
    requires room { vec_len buffer.old ≡ ROOM }
    ensures room { result + (end - start) < vec_len buffer.new }
    ensures same { slice_range buffer.new.items result (result + (end - start))
        ≡ slice_range buffer.old.items start end }
    ensures len { vec_len buffer.new ≡ vec_len buffer.old }
{
    if start == end {
        return 0;
    }
    if end < buffer.len() {
        return start;
    }
    move_to_front(buffer.as_mut_slice(), start, end);
    0
}

/// Reads at most `room` bytes into the place `at` of a buffer.
pub(crate) fn read_at<S: Source>(
    input: &mut S,
    buffer: &mut Vec<u8>,
    at: usize,
    room: usize,
) -> Result<usize, Failed>
    requires { at + room ≤ vec_len buffer.old }
    ensures few { IfOk result (λ count. count ≤ room) }
    ensures bytes { MatchResult result
        (λ count. Consumes (S.left input.old) (S.left input.new) (slice_range buffer.new.items at (at + count)))
        (λ _. Keeps (S.left input.old) (S.left input.new)) }
    ensures end { IfOk result (λ count. count ≡ 0 → 0 < room → IsAtEnd (S.left input.new)) }
    ensures front { take at buffer.new.items ≡ take at buffer.old.items }
    ensures len { vec_len buffer.new ≡ vec_len buffer.old }
    ensures later { S.faults input.old ≤ S.faults input.new }
    ensures failed { OnErr result (Rose (S.faults input.old) (S.faults input.new)) }
{
    input.read(&mut buffer[at..at + room])
}

/// The place of the first line feed.
pub(crate) fn line_feed(bytes: &[u8]) -> Option<usize>
    ensures found { IfSome result (FirstFeed bytes.now 0) }
    ensures none { IfNone result (NoFeed bytes.now 0 (length bytes.now)) }
{
    memchr(b'\n', bytes)
}

/// Whether there is nothing but spaces, tabs and carriage returns.
pub(crate) fn is_blank_line(line: &[u8]) -> bool
    ensures { result ≡ list_all is_blank line.now }
{
    line.iter()
        .all(|b| *b == b' ' || *b == b'\t' || *b == b'\r')
}

/// Appends bytes for which there is room.
pub(crate) fn append(block: &mut Vec<u8>, bytes: &[u8])
    requires { vec_len block.old + length bytes.now ≤ vec_capacity block.old }
    ensures items { block.new.items ≡ block.old.items ++ bytes.now }
    ensures capacity { vec_capacity block.old ≤ vec_capacity block.new }
{
    block.extend_from_slice(bytes).unwrap();
}
