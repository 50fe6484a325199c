ghost use Rattle.std.specs.Prelude.{◌≡◌, pos, ◌+ℤ◌, ◌*ℤ◌, ◌≤ℤ◌, ◌<ℤ◌};
ghost use Rattle.svr_num.specs.Numbers.{floor_of};

/// `a` over `b`, rounded towards minus infinity.
pub fn floor_div(a: i128, b: i128) -> i128
    requires { pos 1 ≤ℤ b }
    ensures value { result ≡ floor_of a b }
    ensures not_above { (result *ℤ b) ≤ℤ a }
    ensures greatest { a <ℤ ((result +ℤ pos 1) *ℤ b) }
{
    a.div_euclid(b)
}
