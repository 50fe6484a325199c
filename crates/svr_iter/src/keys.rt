ghost use Rattle.std.specs.Prelude.{◌≡◌};
ghost use Rattle.svr_iter.specs.Keys.{greater};

/// The greater of two keys, where there is one.
pub fn greater_key(a: Option<u64>, b: Option<u64>) -> Option<u64>
    ensures { result ≡ greater a b }
{
    match a {
        None => b,
        Some(x) => match b {
            None => Some(x),
            Some(y) => Some(x.max(y)),
        },
    }
}
