ghost use Rattle.std.specs.Prelude.{◌≡◌, ◌⊎◌, ◌+◌, ◌<◌, ◌≤◌, ◌^◌, true, false, length, Ok, Err, None, unwrap_or};
ghost use Rattle.std.specs.Prelude.{IfOk, OnOk, IsOk, IfSome, IfErr};
ghost use Rattle.svr_lines.specs.Reading.{taken_bytes, KnowsEnd};
ghost use Rattle.svr_request.specs.Requests.{seen_or_refused, with_block};
ghost use Rattle.svr_request.specs.declared.reply.Reply.{Reply};
ghost use Rattle.svr_store.specs.Store.{IsOpen};
ghost use Rattle.svr_serve.specs.Layout.{EndsInput, HasReadCauses, StopsBlock, StopsReading, TakesNext, TakesRequest, TakesWholeBlock};
ghost use Rattle.svr_serve.specs.Program.{streams};
ghost use Rattle.svr_serve.specs.Turning.{Answers, HasTurnCauses, IsClosedBy, IsIdle, IsReady, Replied, StopsUnanswered, TurnDoes, standing};

use crate::ending::Ending;
use crate::output::send;
use crate::session::Session;
use std::alloc::Global;
use svr_edge::{Disk, Failed, Sink, Source};
use svr_lines::{BlockEnd, Lines, Piece};
use svr_request::{Asked, Refusal, Request, print_reply, read_request};

/// What one turn of the program came to.
pub(crate) enum Turn {
    /// A request was answered, and its reply written.
    Served,
    /// No request was left.
    Ended,
    /// The program can't go on. A part of a reply may be written.
    Stop(Ending),
}

/// Takes the next line of the input: what it asks for, or why it is no request. `None` at the end of the input.
fn take_line<S: Source>(
    alloc: Global,
    lines: &mut Lines,
    input: &mut S,
) -> Result<Option<Asked>, Ending>
    requires { KnowsEnd lines.old (S.left input.old) }
    ensures asked { IfOk result (λ taken. IfSome taken (λ asked. TakesNext
        (S.left input.old) (S.left input.new) lines.old lines.new (seen_or_refused asked.request) (unwrap_or asked.block 0))) }
    ensures end { result ≡ Ok None → EndsInput (S.left input.old) (S.left input.new) lines.old lines.new }
    ensures stop { IfErr result (λ ending.
        StopsReading ending (S.left input.old) (S.left input.new) lines.old lines.new) }
    ensures causes { HasReadCauses (S.faults input.old) (S.faults input.new) lines.new result }
{
    match lines.line(input)? {
        Piece::Line => Ok(Some(read_request(alloc, lines.text())?)),
        Piece::TooLong => Ok(Some(Asked {
            block: None,
            request: Err(Refusal::LineTooLong),
        })),
        Piece::End => Ok(None),
    }
}

/// Takes the block of so many bytes that comes next.
fn take_block<S: Source>(lines: &mut Lines, input: &mut S, size: u64) -> Result<(), Ending>
    requires { KnowsEnd lines.old (S.left input.old) }
    ensures block { OnOk result (TakesWholeBlock (S.left input.old) (S.left input.new) lines.old lines.new size) }
    ensures known_end { OnOk result (KnowsEnd lines.new (S.left input.new)) }
    ensures ended { lines.old.ended ≡ true
        → (lines.new.ended ≡ true) × (taken_bytes lines.new ≡ taken_bytes lines.old) }
    ensures before_limit { IsOk result ⊎ (result ≡ Err Ending.Cut)
        → lines.old.ended ≡ false → lines.new.ended ≡ true → taken_bytes lines.new < lines.new.limit }
    ensures stop { IfErr result (λ ending.
        StopsBlock ending (S.left input.old) (S.left input.new) lines.old lines.new size) }
    ensures causes { HasReadCauses (S.faults input.old) (S.faults input.new) lines.new result }
{
    match lines.block(input, size)? {
        BlockEnd::Whole | BlockEnd::Dropped => Ok(()),
        BlockEnd::Cut => Err(Ending::Cut),
    }
}

/// Takes the next request of the input, or why the line is none, and its block. `None` at the end of the input.
fn take_request<S: Source>(
    alloc: Global,
    lines: &mut Lines,
    input: &mut S,
) -> Result<Option<Result<Request, Refusal>>, Ending>
    requires { KnowsEnd lines.old (S.left input.old) }
    ensures request { IfOk result (λ taken. IfSome taken (λ request. TakesRequest
        (S.left input.old) (S.left input.new) lines.old lines.new (with_block (seen_or_refused request) lines.new.block))) }
    ensures end { result ≡ Ok None → EndsInput (S.left input.old) (S.left input.new) lines.old lines.new }
    ensures stop { IfErr result (λ ending.
        StopsReading ending (S.left input.old) (S.left input.new) lines.old lines.new) }
    ensures causes { HasReadCauses (S.faults input.old) (S.faults input.new) lines.new result }
{
    let Some(asked) = take_line(alloc, lines, input)? else {
        return Ok(None);
    };
    take_block(lines, input, asked.block.unwrap_or(0))?;
    Ok(Some(asked.request))
}

/// Answers a request that was taken, with its block, and prints the reply, unless the reply closes the store.
fn print_answer<D: Disk>(
    alloc: Global,
    session: &mut Session,
    disk: &mut D,
    request: Result<Request, Refusal>,
) -> Result<(), Ending>
    requires open { IsOpen session.old.store (D.view disk.old) }
    requires few { length session.old.lines.block ≤ 8388608 }
    ensures answer { (reply : Reply) × Answers (D.view disk.old) (D.view disk.new) session.old.store session.new.store
        (with_block (seen_or_refused request) session.old.lines.block) reply
        × OnOk result (IsReady session.new (D.view disk.new) reply) × IfErr result (λ ending. IsClosedBy ending reply) }
    ensures lines { session.new.lines ≡ session.old.lines }
{
    let block = session.lines.block_bytes();
    let reply = session.store.submit(alloc, disk, request, block);
    if let Some(why) = session.store.closed() {
        return Err(why.into());
    }
    print_reply(&reply, &mut session.reply);
    Ok(())
}

/// Takes the next request, answers it and prints the reply. False at the end of the input.
fn print_next<S: Source, D: Disk>(
    alloc: Global,
    session: &mut Session,
    input: &mut S,
    disk: &mut D,
) -> Result<bool, Ending>
    requires known_end { KnowsEnd session.old.lines (S.left input.old) }
    requires open { IsOpen session.old.store (D.view disk.old) }
    ensures reply { result ≡ Ok true → (reply : Reply) × Replied (S.left input.old) (S.left input.new) session.old.lines session.new.lines
        (D.view disk.old) (D.view disk.new) session.old.store session.new.store reply × IsReady session.new (D.view disk.new) reply }
    ensures end { result ≡ Ok false → EndsInput (S.left input.old) (S.left input.new) session.old.lines session.new.lines
        × IsIdle (D.view disk.old) (D.view disk.new) × (session.new.store ≡ session.old.store) }
    ensures stop { IfErr result (λ ending. StopsUnanswered ending (S.left input.old) (S.left input.new) session.old.lines session.new.lines
        (D.view disk.old) (D.view disk.new) session.old.store session.new.store) }
    ensures causes { HasReadCauses (S.faults input.old) (S.faults input.new) session.new.lines result }
{
    match take_request(alloc, &mut session.lines, input) {
        Ok(Some(request)) => {
            print_answer(alloc, session, disk, request)?;
            Ok(true)
        }
        Ok(None) => Ok(false),
        Err(ending) => Err(ending),
    }
}

/// Carries one turn: takes the next request, answers it, and writes the reply and sends it on its way. A reply that closes
/// the store is left to be told as the fault line.
pub(crate) fn serve_one<S: Source, O: Sink, D: Disk>(
    alloc: Global,
    session: &mut Session,
    input: &mut S,
    output: &mut O,
    disk: &mut D,
) -> Turn
    requires known_end { KnowsEnd session.old.lines (S.left input.old) }
    requires open { IsOpen session.old.store (D.view disk.old) }
    ensures turn { TurnDoes result
        (standing (streams (S.left input.old) (S.faults input.old) (O.taken output.old) (O.sent output.old) (O.faults output.old))
        (D.view disk.old) session.old.lines session.old.store)
        (standing (streams (S.left input.new) (S.faults input.new) (O.taken output.new) (O.sent output.new) (O.faults output.new))
        (D.view disk.new) session.new.lines session.new.store) }
    ensures causes { HasTurnCauses result
        (standing (streams (S.left input.old) (S.faults input.old) (O.taken output.old) (O.sent output.old) (O.faults output.old))
        (D.view disk.old) session.old.lines session.old.store)
        (standing (streams (S.left input.new) (S.faults input.new) (O.taken output.new) (O.sent output.new) (O.faults output.new))
        (D.view disk.new) session.new.lines session.new.store) }
{
    match print_next(alloc, session, input, disk) {
        Ok(true) => match send(output, session.reply.bytes()) {
            Ok(()) => Turn::Served,
            Err(Failed) => Turn::Stop(Ending::Output),
        },
        Ok(false) => Turn::Ended,
        Err(ending) => Turn::Stop(ending),
    }
}
