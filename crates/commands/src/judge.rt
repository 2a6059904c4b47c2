// Why each change of the systems is refused: its conditions, and the first refusal whose condition holds. A condition that the change does not know is false.
// (Two reasons for one number are joined by `|`, which costs nothing: `||` would make a branch that the proof has to join by hand.)
ghost use Rattle.std.specs.Prelude.{◌≡◌, List, ℕ};
ghost use Rattle.model.specs.Request.{define, locate, link, copy, remove, enable};
ghost use Rattle.model.specs.Stage.{spot};
ghost use Rattle.model.specs.Stored.{memory_of};
ghost use Rattle.facts.specs.Refusals.{outcome};
ghost use Rattle.commands.specs.Subject.{Tells, Sees, NumberOf, NumberAt, NumberButTwenty};

use crate::conditions::{at_or_before, locked, no_room, other_type, used_in, wrong_pred};
use crate::numbers::{Rungs, first_number};
use crate::subject::{Looked, Subject};
use facts::kinds::group_of;
use facts::refusals::Refusal;
use memory::stage::aslant;
use model::{Kind, Memory, Position, Turns, Vec3};
use text::values::offsets_fine;

// A definition of the first name.
#[tactic(auto, unfolding(model::specs::Refusals::change_ladder, model::specs::Refusals::first))]
pub fn judge_define(k: Looked, level: u8, kind: Kind) -> Result<(), Refusal>
    ensures { (m : Memory) (x y : List ℕ) (t : Vec3) (u : Turns) → Sees m x y k → NumberOf level (memory_of m) (define kind x t u) (outcome result) }
{
    let n = k.first;
    first_number(Rungs {
        reserved: n.reserved,
        locked: locked(level, group_of(kind)),
        other: other_type(n, kind),
        used: used_in(k.links, k.enabled, n.place),
        full: no_room(n.place, k.links.count),
        ..Rungs::CLEAR
    })
}

// The definition of the first name where the stage is: at an offset, with the platform at a position. 6 is judged here, since no line shows it.
#[tactic(auto, unfolding(model::specs::Refusals::change_ladder, model::specs::Refusals::first))]
pub fn judge_locate(k: Looked, p: Position, at: Vec3) -> Result<(), Refusal>
    ensures { (m : Memory) (x y : List ℕ) → Sees m x y k → at ≡ (spot (memory_of m) p).at → NumberAt p (memory_of m) (locate x) (outcome result) }
{
    let n = k.first;
    first_number(Rungs {
        beyond: !offsets_fine(at),
        reserved: n.reserved,
        other: other_type(n, Kind::Ksf),
        used: used_in(k.links, k.enabled, n.place),
        aslant: aslant(p),
        full: no_room(n.place, k.links.count),
        ..Rungs::CLEAR
    })
}

// A link of the first name to the second.
#[tactic(auto, unfolding(model::specs::Refusals::change_ladder, model::specs::Refusals::first))]
pub fn judge_link(k: Looked, level: u8) -> Result<(), Refusal>
    ensures { (m : Memory) (x y : List ℕ) → Sees m x y k → NumberOf level (memory_of m) (link x y) (outcome result) }
{
    let (a, b) = (k.first, k.second);
    first_number(Rungs {
        absent: a.found.is_none() | b.found.is_none(),
        reserved: a.reserved,
        locked: locked(level, a.group),
        other: wrong_pred(a, b),
        used: used_in(k.links, k.enabled, a.place),
        ring: at_or_before(k.links, a.place, b.place),
        ..Rungs::CLEAR
    })
}

// A copy of the first name to the second.
pub fn judge_copy(k: Looked, level: u8) -> Result<(), Refusal>
    ensures { (m : Memory) (x y : List ℕ) → Sees m x y k → NumberOf level (memory_of m) (copy x y) (outcome result) }
{
    let (s, d) = (k.first, k.second);
    first_number(Rungs {
        absent: s.found.is_none(),
        reserved: s.reserved | d.reserved,
        locked: locked(level, s.group),
        other: other_type(d, s.kind),
        used: used_in(k.links, k.enabled, d.place),
        ring: at_or_before(k.links, d.place, s.place),
        full: no_room(d.place, k.links.count),
        ..Rungs::CLEAR
    })
}

// The removal of the first name, as far as the volatile memory tells.
#[tactic(auto, unfolding(model::specs::Refusals::change_ladder, model::specs::Lists::kept, model::specs::Refusals::first))]
pub fn judge_remove(k: Looked, level: u8) -> Result<(), Refusal>
    ensures { (m : Memory) (x y : List ℕ) → Sees m x y k → NumberButTwenty level (memory_of m) (remove x) (outcome result) }
{
    let n = k.first;
    first_number(Rungs {
        absent: n.found.is_none(),
        reserved: n.reserved,
        locked: locked(level, n.group),
        used: used_in(k.links, k.enabled, n.place),
        ..Rungs::CLEAR
    })
}

// The enabling of a name, user or fixed.
#[tactic(auto, unfolding(model::specs::Refusals::change_ladder, model::specs::Refusals::first))]
pub fn judge_enable(n: Subject, level: u8) -> Result<(), Refusal>
    ensures { (m : Memory) (x : List ℕ) → Tells (memory_of m) x n → NumberOf level (memory_of m) (enable x) (outcome result) }
{
    first_number(Rungs {
        absent: n.found.is_none(),
        locked: locked(level, n.group),
        ..Rungs::CLEAR
    })
}
