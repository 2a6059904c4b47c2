// Signed numbers of the machine in another form: negated, or without their sign.
#![tactic(auto)]

ghost use Rattle.std.specs.Prelude.{◌≡◌, ◌<◌, ◌^◌, nat_abs, neg_ℤ};

pub fn negated(z: i64) -> i64
    requires { nat_abs z < 2 ^ 63 }
    ensures { result ≡ neg_ℤ z }
{
    -z
}

// Without its sign.
pub fn magnitude(z: i64) -> u64
    ensures { result ≡ nat_abs z }
{
    z.unsigned_abs()
}
