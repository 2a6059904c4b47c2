// What is said of a group.
ghost use Rattle.std.specs.Prelude.{◌≡◌};
ghost use Rattle.model.specs.Kinds.{of_group};

use model::Group;

// Its place in lists.
pub fn order_of(g: Group) -> u8
    ensures { result ≡ (of_group g).order }
{
    g as u8
}

// Its systems need level 1.
pub fn guarded(g: Group) -> bool
    ensures { result ≡ (of_group g).guarded }
{
    matches!(g, Group::Orientational | Group::Levelling)
}
