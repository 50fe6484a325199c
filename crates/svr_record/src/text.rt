ghost use Rattle.std.specs.Prelude.{◌≡◌};
ghost use Rattle.svr_record.specs.Reading.{Gives, text_at, text_in};

use crate::fault::RecordFault;
use crate::number::front;
use std::alloc::Global;
use std::str;
use svr_edge::Text;

/// A copy of bytes that are UTF-8.
fn text_of(alloc: Global, bytes: &[u8]) -> Result<Text, RecordFault>
    ensures { Gives (λ text. text) result (text_in bytes.now) }
{
    match str::from_utf8(bytes) {
        Ok(text) => Ok(Text::new(alloc, text)?),
        Err(_) => Err(RecordFault::NotARecord),
    }
}

/// The text in the first bytes, so many, and the bytes behind it.
#[tactic(auto, unfolding(crate::specs::Reading::text_at))]
pub(crate) fn text(alloc: Global, bytes: &[u8], count: usize) -> Result<(Text, &[u8]), RecordFault>
    ensures { Gives (λ x. (x.0, x.1.now)) result (text_at count bytes.now) }
{
    let (part, rest) = front(bytes, count)?;
    Ok((text_of(alloc, part)?, rest))
}
