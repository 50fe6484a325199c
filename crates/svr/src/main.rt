//! `svr`: serves requests from standard input, with replies to standard output, over the journal in the file `svr.db`.
#![tactic(auto)]

ghost use Rattle.std.specs.Prelude.{◌≡◌, ◌⊎◌, None, map, string_bytes};
ghost use Rattle.std.specs.Process.{exit_status};
ghost use Rattle.svr_serve.specs.Program.{Carried, HasCause, SendsAll, Unopened, cache_in, streams};

use std::alloc::Global;
use std::fs::Files;
use std::process::ExitCode;
use std::rt::Env;
use std::{env, io};
use svr_edge::{Disk, Sink, Source};
use svr_host::{FileDisk, StdSink, StdSource};
use svr_serve::svr;

/// The file that keeps the journal, in the folder where the program starts.
const JOURNAL: &str = "svr.db";

/// The words of the command line, the program's name first.
fn read_words(rt: &(impl Env + AllocGlobal)) -> io::Result<Vec<String>> {
    let mut words = Vec::new(rt.alloc());
    for word in env::args(rt)? {
        words.push(word)?;
    }
    Ok(words)
}

/// Runs the program, and gives the code that the process ends with: the program's status.
fn run<S: Source, O: Sink, D: Disk>(
    alloc: Global,
    words: &[String],
    input: &mut S,
    output: &mut O,
    disk: &mut D,
) -> ExitCode
    ensures words { exit_status result ≡ 2 → cache_in (map string_bytes words.now) ≡ None }
    ensures none { cache_in (map string_bytes words.now) ≡ None → (exit_status result ≡ 2) ⊎ (exit_status result ≡ 7) }
    ensures ends { Unopened (exit_status result)
        (streams (S.left input.old) (S.faults input.old) (O.taken output.old) (O.sent output.old) (O.faults output.old))
        (streams (S.left input.new) (S.faults input.new) (O.taken output.new) (O.sent output.new) (O.faults output.new))
        (D.view disk.old) (D.view disk.new)
        ⊎ Carried (map string_bytes words.now) (exit_status result)
        (streams (S.left input.old) (S.faults input.old) (O.taken output.old) (O.sent output.old) (O.faults output.old))
        (streams (S.left input.new) (S.faults input.new) (O.taken output.new) (O.sent output.new) (O.faults output.new))
        (D.view disk.old) (D.view disk.new) }
    ensures cause { HasCause (exit_status result)
        (streams (S.left input.old) (S.faults input.old) (O.taken output.old) (O.sent output.old) (O.faults output.old))
        (streams (S.left input.new) (S.faults input.new) (O.taken output.new) (O.sent output.new) (O.faults output.new)) }
    ensures sent { SendsAll
        (streams (S.left input.old) (S.faults input.old) (O.taken output.old) (O.sent output.old) (O.faults output.old))
        (streams (S.left input.new) (S.faults input.new) (O.taken output.new) (O.sent output.new) (O.faults output.new)) }
{
    ExitCode::from(svr(alloc, words, input, output, disk))
}

fn main(rt: HostRuntime) -> ExitCode {
    // Words that can't be read have no reading, as no words have none.
    let words = match read_words(&rt) {
        Ok(words) => words,
        Err(_) => Vec::new(rt.alloc()),
    };
    let mut input = StdSource::new(&rt);
    let mut output = StdSink::new(&rt);
    let mut disk = FileDisk::at(&rt, JOURNAL);
    run(
        rt.alloc(),
        words.as_slice(),
        &mut input,
        &mut output,
        &mut disk,
    )
}
