//! Keys in descending order.
ghost use Rattle.std.specs.Prelude.{◌≡◌, ◌≤◌, IfNone, IfSome, OnOk, length, nat_lt};
ghost use Rattle.std.specs.List.{insert, prefix_len};
ghost use Rattle.svr_listing.specs.Listing.{with_key};

use svr_edge::Memory;

/// How many keys stand in front of the first that isn't above `key`.
fn place_of_key(keys: &[u64], key: u64) -> usize
    ensures value { result ≡ prefix_len (λ other. nat_lt key other) keys.now }
    ensures within { result ≤ length keys.now }
{
    keys.iter().take_while(|other| **other > key).count()
}

/// Where a key comes among descending keys, `None` where it is there.
fn new_place_of_key(keys: &[u64], key: u64) -> Option<usize>
    ensures within { IfSome result (λ at. at ≤ length keys.now) }
    ensures new { IfSome result (λ at. insert keys.now at key ≡ with_key key keys.now) }
    ensures there { IfNone result (keys.now ≡ with_key key keys.now) }
{
    let at = place_of_key(keys, key);
    if at < keys.len() && keys[at] == key {
        None
    } else {
        Some(at)
    }
}

/// Adds a key at its place among descending keys, if it is not there.
pub fn insert_key(keys: &mut Vec<u64>, key: u64) -> Result<(), Memory>
    ensures { OnOk result (keys.new.items ≡ with_key key keys.old.items) }
{
    if let Some(at) = new_place_of_key(keys, key) {
        keys.insert(at, key)?;
    }
    Ok(())
}
