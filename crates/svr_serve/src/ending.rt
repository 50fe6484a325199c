ghost use Rattle.std.specs.Prelude.{◌≡◌};
ghost use Rattle.svr_serve.specs.Layout.{HasNoNumber, line_of_ending, status_of};

use svr_edge::Memory;
use svr_journal::JournalError;
use svr_lines::InputStop;
use svr_store::Closed;
use svr_words::WordsFault;

/// How the program ends.
#[derive(Clone, Copy, Debug, PartialEq, Eq)]
pub(crate) enum Ending {
    /// The input was read to its end.
    Complete,
    /// The input ended inside a block.
    Cut,
    /// The words of the command line have no reading, or don't ask to serve.
    Words,
    /// The source failed.
    Input,
    /// The sink failed.
    Output,
    /// A write or a sync of a change's record failed.
    Write,
    /// The disk failed when it was opened.
    Device,
    /// The disk is no journal: this place is at fault.
    Journal(u64),
    /// Memory was wanting before the words or a line could be read, or behind the record of a change.
    Memory,
    /// As many bytes were read as may be.
    Bytes,
}

impl From<WordsFault> for Ending {
    ghost use Rattle.std.specs.Prelude.{◌≡◌};
    ghost use Rattle.svr_serve.specs.Layout.{ending_of_words};

    ghost from_gives = { λ fault ending. ending ≡ ending_of_words fault };

    fn from(fault: WordsFault) -> Ending {
        match fault {
            WordsFault::NoReading => Ending::Words,
            WordsFault::Memory => Ending::Memory,
        }
    }
}

impl From<InputStop> for Ending {
    ghost use Rattle.std.specs.Prelude.{◌≡◌};
    ghost use Rattle.svr_serve.specs.Layout.{ending_of};

    ghost from_gives = { λ stop ending. ending ≡ ending_of stop };

    fn from(stop: InputStop) -> Ending {
        match stop {
            InputStop::Input => Ending::Input,
            InputStop::Bytes => Ending::Bytes,
        }
    }
}

impl From<JournalError> for Ending {
    ghost use Rattle.std.specs.Prelude.{◌≡◌};
    ghost use Rattle.svr_serve.specs.Layout.{ending_of_error};

    ghost from_gives = { λ error ending. ending ≡ ending_of_error error };

    fn from(error: JournalError) -> Ending {
        match error {
            JournalError::Device => Ending::Device,
            JournalError::NotAJournal { at } => Ending::Journal(at),
            JournalError::Memory => Ending::Memory,
        }
    }
}

impl From<Closed> for Ending {
    ghost use Rattle.std.specs.Prelude.{◌≡◌};
    ghost use Rattle.svr_serve.specs.Layout.{ending_of_closed};

    ghost from_gives = { λ why ending. ending ≡ ending_of_closed why };

    fn from(why: Closed) -> Ending {
        match why {
            Closed::Write => Ending::Write,
            Closed::Memory => Ending::Memory,
        }
    }
}

impl From<Memory> for Ending {
    ghost use Rattle.std.specs.Prelude.{◌≡◌};
    ghost use Rattle.svr_serve.specs.declared.ending.Ending.TheVariants as ending;

    ghost from_gives = { λ _ why. why ≡ ending.Memory };

    fn from(_memory: Memory) -> Ending {
        Ending::Memory
    }
}

impl Ending {
    pub(crate) fn status(self) -> u8
        ensures { result ≡ status_of self }
    {
        match self {
            Ending::Complete => 0,
            Ending::Cut => 1,
            Ending::Words => 2,
            Ending::Input => 3,
            Ending::Output => 4,
            Ending::Write | Ending::Device => 5,
            Ending::Journal(_) => 6,
            Ending::Memory => 7,
            Ending::Bytes => 8,
        }
    }

    /// The fault line, where no number stands in it; empty where there is none.
    pub(crate) fn fault_line(self) -> &'static [u8]
        ensures { HasNoNumber self → result.now ≡ line_of_ending self }
    {
        match self {
            Ending::Complete | Ending::Output | Ending::Journal(_) => b"",
            Ending::Cut => b"{\"fault\":\"cut\"}\n",
            Ending::Words => b"{\"fault\":\"words\"}\n",
            Ending::Input => b"{\"fault\":\"input\"}\n",
            Ending::Write => b"{\"fault\":\"write\"}\n",
            Ending::Device => b"{\"fault\":\"device\"}\n",
            Ending::Memory => b"{\"fault\":\"memory\"}\n",
            Ending::Bytes => b"{\"fault\":\"long\"}\n",
        }
    }
}
