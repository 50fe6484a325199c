ghost use Rattle.std.specs.Prelude.{◌≡◌, map, option_map, string_bytes};
ghost use Rattle.std.specs.BTreeMap.{keys};
ghost use Rattle.std.specs.Cmp.Lexicographic.{pointwise};
ghost use Rattle.std.specs.List.{list_all, list_any};
ghost use Rattle.std.specs.Str.{bytes_eq};
ghost use Rattle.serde_json.specs.View.{view};
ghost use Rattle.svr_json.specs.Parts.{has_members, has_only, text_at};

use serde_json::{Map, Value};

/// Whether the names of the members are these, which ascend by bytes.
fn are_names(members: &Map<String, Value>, names: &[&str]) -> bool
    ensures { result ≡ pointwise bytes_eq (map string_bytes (keys members.now))
        (map (λ name. name.now) names.now) }
{
    let mut rest = names.iter();
    for key in members.keys() {
        match rest.next() {
            Some(name) if key.as_str() == *name => {}
            _ => return false,
        }
    }
    rest.next().is_none()
}

/// Whether a name is one of these.
fn is_among(name: &str, names: &[&str]) -> bool
    ensures { result ≡ list_any (λ other. bytes_eq name.now other.now) names.now }
{
    names.iter().any(|other| name == *other)
}

/// Whether the names of the members are among these.
fn are_among(members: &Map<String, Value>, names: &[&str]) -> bool
    ensures { result ≡ list_all (λ key. list_any (λ other. bytes_eq (string_bytes key) other.now) names.now)
        (keys members.now) }
{
    members.keys().all(|key| is_among(key.as_str(), names))
}

/// Whether the value is an object with members of exactly these names, which ascend by bytes.
pub fn has_members(value: &Value, names: &[&str]) -> bool
    ensures { result ≡ has_members (map (λ name. name.now) names.now) (view value.now) }
{
    match value.as_object() {
        Some(members) => are_names(members, names),
        None => false,
    }
}

/// Whether the value is an object that has no member of another name.
pub fn has_only(value: &Value, names: &[&str]) -> bool
    ensures { result ≡ has_only (map (λ name. name.now) names.now) (view value.now) }
{
    match value.as_object() {
        Some(members) => are_among(members, names),
        None => false,
    }
}

/// The string that an object has as a member.
pub fn text_at<'a>(value: &'a Value, name: &str) -> Option<&'a str>
    ensures { option_map (λ text. text.now) result ≡ text_at name.now (view value.now) }
{
    value.get(name)?.as_str()
}
