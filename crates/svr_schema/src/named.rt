ghost use Rattle.std.specs.Prelude.{◌≡◌, ℕ, List, map};
ghost use Rattle.std.specs.List.{list_all, list_any};
ghost use Rattle.std.specs.Str.{bytes_eq};
ghost use Rattle.svr_schema.specs.Lawful.{are_different, is_name, is_name_byte};

use svr_edge::Text;

/// What has a name.
pub trait Named {
    ghost name_of: { Self → List ℕ };

    fn name(&self) -> &Text
        ensures { result.now ≡ name_of self.now };
}

fn is_name_byte(byte: u8) -> bool
    ensures { result ≡ is_name_byte byte }
{
    byte.is_ascii_lowercase() || byte.is_ascii_digit() || byte == b'_'
}

fn are_name_bytes(bytes: &[u8]) -> bool
    ensures { result ≡ list_all is_name_byte bytes.now }
{
    bytes.iter().all(|byte| is_name_byte(*byte))
}

/// Whether a text names a table or a column: 1 to 32 bytes, first a letter a to z, then letters a to z, digits and `_`.
#[tactic(auto, unfolding(crate::specs::Lawful::is_name))]
pub fn is_name(name: &str) -> bool
    ensures { result ≡ is_name name.now }
{
    let Some((first, rest)) = name.as_bytes().split_first() else {
        return false;
    };
    first.is_ascii_lowercase() && rest.len() < 32 && are_name_bytes(rest)
}

/// Whether one of these has the name.
fn is_taken<N: Named>(name: &Text, others: &[N]) -> bool
    ensures { result ≡ list_any (λ other. bytes_eq name.now (N.name_of other)) others.now }
{
    others.iter().any(|other| name == other.name())
}

/// Whether no two of these have one name.
#[tactic(auto, unfolding(crate::specs::Lawful::are_different))]
pub fn are_different<N: Named>(items: &[N]) -> bool
    ensures { result ≡ are_different (map N.name_of items.now) }
{
    let Some((first, rest)) = items.split_first() else {
        return true;
    };
    !is_taken(first.name(), rest) && are_different(rest)
}
