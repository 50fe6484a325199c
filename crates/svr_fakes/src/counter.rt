ghost use Rattle.std.specs.Prelude.{◌≡◌, ◌≤◌};
ghost use Rattle.svr_edge.specs.Causes.{one_more};

/// Counts one more. The count stops at the end of `u64`.
pub fn raise(count: &mut u64)
    ensures more { count.new ≡ one_more count.old }
    ensures later { count.old ≤ count.new }
{
    *count = count.saturating_add(1);
}
