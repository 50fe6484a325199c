ghost use Rattle.std.specs.Prelude.{◌≡◌, OnOk};
ghost use Rattle.svr_gen.specs.Layout.{followed};
ghost use Rattle.svr_gen.specs.Parts.{numbered};
ghost use Rattle.svr_gen.specs.Requests.{mode, search_request};

use crate::words::{put_next_word, put_word};
use crate::writer::Writer;
use svr_edge::Memory;

/// The most hits that are searched for.
const HITS: u32 = 20;

/// How many searches stand at the end.
const SEARCHES: u32 = 10;

/// The mode of a search.
#[tactic(auto, using(crate::proofs::Following::parts), unfolding(crate::specs::Requests::mode))]
fn put_mode(writer: &mut Writer) -> Result<(), Memory>
    ensures { OnOk result (writer.new ≡ followed writer.old mode) }
{
    if writer.draw(2) == 1 {
        writer.put(b"any")
    } else {
        writer.put(b"all")
    }
}

/// A search for two words.
pub(crate) fn put_search(writer: &mut Writer) -> Result<(), Memory>
    ensures { OnOk result (writer.new ≡ followed writer.old search_request) }
{
    writer.put(b"{\"op\":\"search\",\"query\":\"")?;
    put_word(writer)?;
    put_next_word(writer)?;
    writer.put(b"\",\"mode\":\"")?;
    put_mode(writer)?;
    writer.put(b"\",\"k\":")?;
    writer.put_one_to(HITS)?;
    writer.put(b"}\n")
}

/// The searches at the end.
#[tactic(auto, using(crate::proofs::Following::numbers))]
pub(crate) fn put_searches(writer: &mut Writer) -> Result<(), Memory>
    ensures { OnOk result (writer.new ≡ followed writer.old (numbered (λ _. search_request) 10)) }
{
    for _ in 0..SEARCHES {
        put_search(writer)?;
    }
    Ok(())
}
