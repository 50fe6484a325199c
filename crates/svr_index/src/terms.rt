ghost use Rattle.std.specs.Prelude.{◌≡◌, option_copied, option_map};
ghost use Rattle.svr_index.specs.Terms.{IsNextLive, lesser_term};

use crate::index::Index;
use svr_edge::Text;

/// The lesser of two terms, or the one that is there.
fn lesser<'a>(first: Option<&'a Text>, second: Option<&'a Text>) -> Option<&'a Text>
    ensures { option_map (λ t. t.now) result ≡ lesser_term (option_map (λ t. t.now) first.entry) (option_map (λ t. t.now) second.entry) }
{
    match (first, second) {
        (Some(a), Some(b)) => Some(if b < a { b } else { a }),
        (Some(a), None) => Some(a),
        (None, b) => b,
    }
}

impl Index {
    /// The first term behind one, or of all, under which a pair is posted or a document held.
    pub fn next_term(&self, after: Option<&Text>) -> Option<&Text>
        ensures { IsNextLive self.now (option_map (λ t. t.now) after.entry) (option_map (λ t. t.now) result) }
    {
        lesser(self.long.next_term(after), self.short.next_term(after))
    }
}
