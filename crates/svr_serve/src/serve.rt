ghost use Rattle.std.specs.Prelude.{◌≡◌, ◌⊎◌, Some, None, IfOk, IfErr, map, string_bytes};
ghost use Rattle.svr_core.specs.State.{State};
ghost use Rattle.svr_store.specs.Store.{Serves};
ghost use Rattle.svr_serve.specs.Program.{Carried, HasCause, SendsAll, Unopened, cache_in, streams};
ghost use Rattle.svr_serve.specs.Ran.{Carries, EndsBecause, Serving, StaysClosed, StopsAtWords};
ghost use Rattle.svr_serve.specs.Turning.{IsNew};

use crate::ending::Ending;
use crate::output::finish;
use crate::session::Session;
use crate::turn::{Turn, serve_one};
use std::alloc::Global;
use svr_edge::{Disk, Sink, Source};
use svr_words::{Words, read_words};

/// Carries turns until the input ends or the program can't go on.
fn serve_turns<S: Source, O: Sink, D: Disk>(
    alloc: Global,
    session: &mut Session,
    input: &mut S,
    output: &mut O,
    disk: &mut D,
) -> Ending
    requires { IsNew session.old (D.view disk.old) }
    ensures { (opening : State) → Serves session.old.store opening
        → Carries session.old.store.pages.capacity result opening
        (streams (S.left input.old) (S.faults input.old) (O.taken output.old) (O.sent output.old) (O.faults output.old))
        (streams (S.left input.new) (S.faults input.new) (O.taken output.new) (O.sent output.new) (O.faults output.new))
        (D.view disk.old) (D.view disk.new)
        × EndsBecause result
        (streams (S.left input.old) (S.faults input.old) (O.taken output.old) (O.sent output.old) (O.faults output.old))
        (streams (S.left input.new) (S.faults input.new) (O.taken output.new) (O.sent output.new) (O.faults output.new))
        (D.view disk.old) (D.view disk.new) }
{
    loop {
        match serve_one(alloc, session, input, output, disk) {
            Turn::Served => {}
            Turn::Ended => return Ending::Complete,
            Turn::Stop(ending) => return ending,
        }
    }
}

/// Takes the room, opens the store of the disk, which caches so many pages at most, and serves.
fn serve<S: Source, O: Sink, D: Disk>(
    alloc: Global,
    cache: u32,
    input: &mut S,
    output: &mut O,
    disk: &mut D,
) -> Ending
    ensures ends { StaysClosed result
        (streams (S.left input.old) (S.faults input.old) (O.taken output.old) (O.sent output.old) (O.faults output.old))
        (streams (S.left input.new) (S.faults input.new) (O.taken output.new) (O.sent output.new) (O.faults output.new))
        (D.view disk.old) (D.view disk.new)
        ⊎ Serving cache result
        (streams (S.left input.old) (S.faults input.old) (O.taken output.old) (O.sent output.old) (O.faults output.old))
        (streams (S.left input.new) (S.faults input.new) (O.taken output.new) (O.sent output.new) (O.faults output.new))
        (D.view disk.old) (D.view disk.new) }
    ensures because { EndsBecause result
        (streams (S.left input.old) (S.faults input.old) (O.taken output.old) (O.sent output.old) (O.faults output.old))
        (streams (S.left input.new) (S.faults input.new) (O.taken output.new) (O.sent output.new) (O.faults output.new))
        (D.view disk.old) (D.view disk.new) }
{
    match Session::open(alloc, disk, cache) {
        Ok(mut session) => serve_turns(alloc, &mut session, input, output, disk),
        Err(ending) => ending,
    }
}

/// How many pages are to be cached, where the words of the command line, the program's name first, ask to serve.
fn read_cache(alloc: Global, words: &[String]) -> Result<u32, Ending>
    ensures asked { IfOk result (λ cache. cache_in (map string_bytes words.now) ≡ Some cache) }
    ensures stop { IfErr result (λ ending. StopsAtWords ending (map string_bytes words.now)) }
{
    match read_words(alloc, words)? {
        Words::Serve { cache } => Ok(cache),
        // They are read, and not served as yet.
        Words::Check { .. } | Words::Gen { .. } => Err(Ending::Words),
    }
}

/// The program: opens the journal of `disk`, reads lines of requests from `input`, and writes a line of reply to each to
/// `output`. A line of nothing but blanks is passed over. Each change is a record of the journal before it is answered.
/// Answers the status that it ends with. The words are those of the command line, the program's name first: `svr_words` reads
/// them, and how many pages are cached.
///
/// | status | when | written behind the replies |
/// |---|---|---|
/// | 0 | the input was read to its end | nothing |
/// | 1 | the input ended inside a block; that request isn't answered | `{"fault":"cut"}` |
/// | 2 | the words have no reading, or don't ask to serve; nothing is read | `{"fault":"words"}` |
/// | 3 | the source failed | `{"fault":"input"}` |
/// | 4 | the sink failed; the last reply may be cut | nothing |
/// | 5 | the disk failed when it was opened; nothing is read | `{"fault":"device"}` |
/// | 5 | a write or a sync of a change's record failed; the record may be there or not | `{"fault":"write"}` |
/// | 6 | the disk isn't empty, and is no journal at the place N; nothing is read | `{"fault":"journal","at":N}` |
/// | 7 | memory was wanting at the start, to read a line, or to make a change whose record is there | `{"fault":"memory"}` |
/// | 8 | `INPUT_BYTES` bytes were read, and no end was seen | `{"fault":"long"}` |
///
/// A line without a line feed is answered at status 0 alone, where it is the last of the input. A request is whole where
/// its line is ended by a line feed and its block is there to its end. Clauses on bytes hold where source, sink and disk
/// tell theirs.
pub fn svr<S: Source, O: Sink, D: Disk>(
    alloc: Global,
    words: &[String],
    input: &mut S,
    output: &mut O,
    disk: &mut D,
) -> u8
    ensures words { result ≡ 2 → cache_in (map string_bytes words.now) ≡ None }
    ensures none { cache_in (map string_bytes words.now) ≡ None → (result ≡ 2) ⊎ (result ≡ 7) }
    ensures ends { Unopened result
        (streams (S.left input.old) (S.faults input.old) (O.taken output.old) (O.sent output.old) (O.faults output.old))
        (streams (S.left input.new) (S.faults input.new) (O.taken output.new) (O.sent output.new) (O.faults output.new))
        (D.view disk.old) (D.view disk.new)
        ⊎ Carried (map string_bytes words.now) result
        (streams (S.left input.old) (S.faults input.old) (O.taken output.old) (O.sent output.old) (O.faults output.old))
        (streams (S.left input.new) (S.faults input.new) (O.taken output.new) (O.sent output.new) (O.faults output.new))
        (D.view disk.old) (D.view disk.new) }
    ensures cause { HasCause result
        (streams (S.left input.old) (S.faults input.old) (O.taken output.old) (O.sent output.old) (O.faults output.old))
        (streams (S.left input.new) (S.faults input.new) (O.taken output.new) (O.sent output.new) (O.faults output.new)) }
    ensures sent { SendsAll
        (streams (S.left input.old) (S.faults input.old) (O.taken output.old) (O.sent output.old) (O.faults output.old))
        (streams (S.left input.new) (S.faults input.new) (O.taken output.new) (O.sent output.new) (O.faults output.new)) }
{
    match read_cache(alloc, words) {
        Ok(cache) => {
            let ending = serve(alloc, cache, input, output, disk);
            finish(ending, output)
        }
        Err(ending) => finish(ending, output),
    }
}
