//! The command, and what it finds in words.
ghost use Rattle.std.specs.Prelude.{◌≡◌, ◌≢◌, IfOk, IfErr, map, string_bytes, false};
ghost use Rattle.clap.specs.Words.{kind_of};
ghost use Rattle.clap.specs.declared.error.kind.ErrorKind.TheVariants as kind;
ghost use Rattle.svr_words.specs.Command.{is_taken};
ghost use Rattle.svr_words.specs.Layout.{Finds};

use clap::{Arg, ArgMatches, Command, Error};
use std::alloc::Global;

/// What `svr MODE [N] [--cache PAGES]` finds in the words, the program's name first.
pub(crate) fn matches<'a>(alloc: Global, words: &'a [String]) -> Result<ArgMatches<'a>, Error>
    ensures ok { IfOk result (Finds (map string_bytes words.now)) }
    ensures err { IfErr result (λ e. kind_of e ≢ kind.OutOfMemory → is_taken (map string_bytes words.now) ≡ false) }
{
    let mode = Arg::new(alloc, "mode").required(true);
    let number = Arg::new(alloc, "number");
    let cache = Arg::new(alloc, "cache").long("cache");
    let command = Command::new(alloc, "svr")
        .arg(mode)?
        .arg(number)?
        .arg(cache)?;
    command.try_get_matches_from(words)
}
