// The test for use of a name, whatever its bytes, in a memory that is well formed.
ghost use Rattle.std.specs.Prelude.{◌≡◌};
ghost use Rattle.model.specs.Use.{use_test};
ghost use Rattle.model.specs.Stored.{memory_of, FineMemory};
ghost use Rattle.chains.specs.Searches.{search_of};
ghost use Rattle.memory.specs.Sought.{end_of, sought_for};

use crate::find::{Found, found_named};
use chains::links::{Search, links_of};
use chains::used::{NOWHERE, Sought, at_place, in_use};
use model::{Group, Memory};

// The fixed system of a group ends the chains of that group alone.
fn at_end(g: Group) -> Sought
    ensures { result ≡ end_of g }
{
    match g {
        Group::Operating => Sought {
            operating: 0,
            orientational: NOWHERE,
            levelling: NOWHERE,
        },
        Group::Orientational => Sought {
            operating: NOWHERE,
            orientational: 0,
            levelling: NOWHERE,
        },
        Group::Levelling => Sought {
            operating: NOWHERE,
            orientational: NOWHERE,
            levelling: 0,
        },
    }
}

// Where what was found is sought, and where nothing was found, a place that is never met.
fn sought_for(f: Option<Found>) -> Sought
    ensures { result ≡ sought_for f }
{
    match f {
        Some(Found::User(k)) => at_place(k as usize),
        Some(Found::Fixed(g)) => at_end(g),
        None => at_place(NOWHERE),
    }
}

// Whether the name is in use, and how many systems were looked at.
pub fn use_of(m: Memory, name: &[u8]) -> Search
    requires { FineMemory m }
    ensures { search_of result ≡ use_test (memory_of m) name.now }
{
    let sought = sought_for(found_named(m, name));
    let links = links_of(m);
    in_use(m.enabled, links.flat(), sought)
}
