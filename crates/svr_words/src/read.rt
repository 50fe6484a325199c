ghost use Rattle.std.specs.Prelude.{◌≡◌, Some, None, IfOk, IsErrOf, map, option_map, string_bytes};
ghost use Rattle.svr_words.specs.Words.{asked_by, pages_in, reading_of, words_in};

use crate::command::matches;
use crate::fault::WordsFault;
use crate::words::Words;
use std::alloc::Global;
use svr_num::read_digits;

/// How many pages are cached where the words don't say.
const CACHED_PAGES: u32 = 1024;

/// How many pages may be cached.
const MOST_PAGES: u32 = 65_536;

/// How many pages are to be cached; `None` where the text isn't digits of a number up to `MOST_PAGES`.
fn read_pages(text: Option<&str>) -> Option<u32>
    ensures { result ≡ pages_in (option_map (λ t. t.now) text.entry) }
{
    let Some(text) = text else {
        return Some(CACHED_PAGES);
    };
    let pages = read_digits(text.as_bytes())?;
    if pages > u64::from(MOST_PAGES) {
        return None;
    }
    Some(pages as u32)
}

/// What a mode asks for, with a number or none, and so many pages.
fn asked(mode: &str, number: Option<&str>, cache: u32) -> Option<Words>
    ensures { result ≡ asked_by mode.now (option_map (λ t. t.now) number.entry) cache }
{
    match (mode, number) {
        ("serve", None) => Some(Words::Serve { cache }),
        ("check", None) => Some(Words::Check { cache }),
        ("gen", Some(number)) => Some(Words::Gen {
            number: read_digits(number.as_bytes())?,
            cache,
        }),
        _ => None,
    }
}

/// What MODE, N and PAGES ask for.
fn reading(mode: Option<&str>, number: Option<&str>, pages: Option<&str>) -> Option<Words>
    ensures { result ≡ reading_of (option_map (λ t. t.now) mode.entry) (option_map (λ t. t.now) number.entry)
        (option_map (λ t. t.now) pages.entry) }
{
    asked(mode?, number, read_pages(pages)?)
}

/// What the words of the command line, the program's name first, ask for by `svr MODE [N] [--cache PAGES]`: MODE is
/// `serve`, `check` or `gen`; N is there exactly for `gen`, and is digits of a number below 2^64; PAGES is digits of a
/// number up to 65,536, and 1,024 pages are cached where it isn't there. Leading zeros are allowed, signs aren't.
pub fn read_words(alloc: Global, words: &[String]) -> Result<Words, WordsFault>
    ensures read { IfOk result (λ w. words_in (map string_bytes words.now) ≡ Some w) }
    ensures none { IsErrOf result WordsFault.NoReading → words_in (map string_bytes words.now) ≡ None }
{
    let matches = matches(alloc, words)?;
    let reading = reading(
        matches.get_str("mode"),
        matches.get_str("number"),
        matches.get_str("cache"),
    );
    reading.ok_or(WordsFault::NoReading)
}
