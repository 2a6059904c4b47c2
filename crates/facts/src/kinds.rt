// What is said of a type.
ghost use Rattle.std.specs.Prelude.{◌≡◌};
ghost use Rattle.model.specs.Kinds.{of_kind};
ghost use Rattle.model.specs.Request.{first_axis};

use model::{Group, Kind};

pub fn code_of(k: Kind) -> u8
    ensures { result ≡ (of_kind k).code }
{
    match k {
        Kind::Ksd => 1,
        Kind::Kst => 2,
        Kind::Ksw => 3,
        Kind::Ksb => 4,
        Kind::Kld => 5,
        Kind::Ksf => 6,
    }
}

pub fn group_of(k: Kind) -> Group
    ensures { result ≡ (of_kind k).group }
{
    match k {
        Kind::Ksd | Kind::Kst | Kind::Ksw | Kind::Ksf => Group::Operating,
        Kind::Ksb => Group::Orientational,
        Kind::Kld => Group::Levelling,
    }
}

pub fn turns_only(k: Kind) -> bool
    ensures { result ≡ (of_kind k).turns_only }
{
    matches!(k, Kind::Ksb)
}

// The first axis that its command has: X is 0, U is 3.
pub fn first_axis(k: Kind) -> usize
    ensures { result ≡ first_axis k }
{
    if turns_only(k) { 3 } else { 0 }
}
