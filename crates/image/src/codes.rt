// Types and signed numbers, as whole numbers of the image.
ghost use Rattle.std.specs.Prelude.{◌≡◌, ◌<◌, ◌^◌, nat_abs};
ghost use Rattle.model.specs.Image.{signed_code, signed_of};
ghost use Rattle.model.specs.Told.{or_number};
ghost use Rattle.facts.specs.Refusals.{told_or};
ghost use Rattle.image.specs.Codes.{kind_coded};

use model::{Group, Kind};

// The type of a code, with its group. (Document 01 binds this form: a match over the number, with a range of refused codes.)
#[tactic(auto, unfolding(crate::specs::Codes::kind_coded, model::specs::Image::kind_of, model::specs::Told::or_number))]
pub fn kind_coded(code: u64) -> Option<(Kind, Group)>
    ensures { told_or 14 (λ p. p) result ≡ or_number 14 (kind_coded code) }
{
    match code {
        1 => Some((Kind::Ksd, Group::Operating)),
        2 => Some((Kind::Kst, Group::Operating)),
        3 => Some((Kind::Ksw, Group::Operating)),
        4 => Some((Kind::Ksb, Group::Orientational)),
        5 => Some((Kind::Kld, Group::Levelling)),
        6 => Some((Kind::Ksf, Group::Operating)),
        0 | 7..=18446744073709551615 => None,
    }
}

// Twice the number, or one less than twice what it is below zero.
pub fn signed_code(z: i64) -> u64
    requires { nat_abs z < 2 ^ 62 }
    ensures { result ≡ signed_code z }
{
    let m = 2 * z.unsigned_abs();
    if z < 0 { m - 1 } else { m }
}

pub fn signed_of(n: u64) -> i64
    requires { n < 2 ^ 63 }
    ensures { result ≡ signed_of n }
{
    if n % 2 == 0 {
        return (n / 2) as i64;
    }
    -((n / 2 + 1) as i64)
}
