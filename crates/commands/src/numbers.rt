// One ladder for every change of the systems: which conditions hold, and the refusal of the first of them.
ghost use Rattle.std.specs.Prelude.{◌≡◌};
ghost use Rattle.model.specs.Refusals.{first};
ghost use Rattle.facts.specs.Refusals.{outcome};
ghost use Rattle.commands.specs.Rungs.{rungs_of};

use facts::refusals::Refusal;

// Which conditions hold; the order in which they are tried is the definitions' `precedence`. A number that a change does not know has a condition that
// is false. 20 is none of these: `changed::settled` gives it, last. (A field for each, and no list of pairs: a judge then names those that it knows.)
#[derive(Clone, Copy)]
pub struct Rungs {
    pub beyond: bool,
    pub absent: bool,
    pub reserved: bool,
    pub locked: bool,
    pub other: bool,
    pub used: bool,
    pub ring: bool,
    pub aslant: bool,
    pub full: bool,
}

impl Rungs {
    // No condition holds.
    pub const CLEAR: Rungs = Rungs {
        beyond: false,
        absent: false,
        reserved: false,
        locked: false,
        other: false,
        used: false,
        ring: false,
        aslant: false,
        full: false,
    };
}

// From the first rung to the last.
#[tactic(auto, unfolding(model::specs::Refusals::first))]
pub fn first_number(r: Rungs) -> Result<(), Refusal>
    ensures { outcome result ≡ first (rungs_of r) }
{
    if r.beyond {
        Err(Refusal::Beyond)
    } else if r.absent {
        Err(Refusal::Absent)
    } else if r.reserved {
        Err(Refusal::Reserved)
    } else if r.locked {
        Err(Refusal::Locked)
    } else if r.other {
        Err(Refusal::OtherType)
    } else if r.used {
        Err(Refusal::InUse)
    } else if r.ring {
        Err(Refusal::Ring)
    } else if r.aslant {
        Err(Refusal::Aslant)
    } else if r.full {
        Err(Refusal::Full)
    } else {
        Ok(())
    }
}
