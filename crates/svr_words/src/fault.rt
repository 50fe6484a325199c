ghost use Rattle.std.specs.Prelude.{◌≡◌, ◌↔◌};
ghost use Rattle.clap.specs.Words.{kind_of};
ghost use Rattle.clap.specs.declared.error.kind.ErrorKind.TheVariants as kind;
ghost use Rattle.svr_words.specs.declared.fault.WordsFault.TheVariants as fault;

use clap::Error;
use clap::error::ErrorKind;

/// Why words weren't read.
#[derive(Clone, Copy, Debug, PartialEq, Eq)]
pub enum WordsFault {
    /// The words have no reading.
    NoReading,
    Memory,
}

impl From<Error> for WordsFault {
    ghost from_gives = { λ error why. (why ≡ fault.Memory) ↔ (kind_of error ≡ kind.OutOfMemory) };

    fn from(error: Error) -> WordsFault {
        match error.kind() {
            ErrorKind::OutOfMemory => WordsFault::Memory,
            _ => WordsFault::NoReading,
        }
    }
}
