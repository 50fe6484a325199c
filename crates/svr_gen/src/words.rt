ghost use Rattle.std.specs.Prelude.{◌≡◌, OnOk};
ghost use Rattle.svr_gen.specs.Layout.{followed};
ghost use Rattle.svr_gen.specs.Requests.{next_word, title, word};

use crate::writer::Writer;
use svr_edge::Memory;

/// How many different words there are.
const WORDS: u32 = 400;

/// How many words a title has behind its first.
const MORE_WORDS: u32 = 7;

/// One word.
#[tactic(auto, using(crate::proofs::Following::parts), unfolding(crate::specs::Requests::word))]
pub(crate) fn put_word(writer: &mut Writer) -> Result<(), Memory>
    ensures { OnOk result (writer.new ≡ followed writer.old word) }
{
    writer.put(b"w")?;
    writer.put_below(WORDS)
}

/// A space, and a word.
#[tactic(auto, using(crate::proofs::Following::parts), unfolding(crate::specs::Requests::next_word))]
pub(crate) fn put_next_word(writer: &mut Writer) -> Result<(), Memory>
    ensures { OnOk result (writer.new ≡ followed writer.old next_word) }
{
    writer.put(b" ")?;
    put_word(writer)
}

/// A title of eight words.
#[tactic(auto, using(crate::proofs::Following::parts, crate::proofs::Following::numbers), unfolding(crate::specs::Requests::title))]
pub(crate) fn put_title(writer: &mut Writer) -> Result<(), Memory>
    ensures { OnOk result (writer.new ≡ followed writer.old title) }
{
    put_word(writer)?;
    for _ in 0..MORE_WORDS {
        put_next_word(writer)?;
    }
    Ok(())
}
