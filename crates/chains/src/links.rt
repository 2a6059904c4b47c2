// The links of a memory: what the questions of ring, chain and use look at.
ghost use Rattle.std.specs.Prelude.{◌≡◌, ◌≤◌, ◌-◌, eqb, length, take};
ghost use Rattle.model.specs.Limits.{max_systems};
ghost use Rattle.model.specs.Chain.{pred_of, hop, on_chain, no_ring};
ghost use Rattle.model.specs.Lists.{search, after};
ghost use Rattle.model.specs.Stored.{systems_of};
ghost use Rattle.chains.specs.Flat.{linked_by, LinksOf};
ghost use Rattle.chains.specs.Searches.{search_of, down};

use crate::held::held;
use facts::limits::MAX_SYSTEMS;
use model::Memory;

// The predecessors' places of the first count systems. (There is no heap: the array has room for all.)
#[derive(Clone, Copy)]
pub struct Links {
    pub preds: [u8; MAX_SYSTEMS],
    pub count: usize,
    pub ghost few: { count ≤ max_systems },
}

impl Links {
    // The places of those that count.
    pub fn flat(&self) -> &[u8]
        ensures { result.now ≡ take self.now.count self.now.preds }
    {
        &self.preds[..self.count]
    }
}

// The links of a memory, whatever it holds: a predecessor's place may lie beyond the last system. The whole array is laid flat, so that the number of
// turns is known to the compiler and it copies no memory.
pub fn links_of(m: Memory) -> Links
    ensures { LinksOf (systems_of m) result.preds result.count }
{
    let mut preds = [0u8; MAX_SYSTEMS];
    for (i, s) in m.systems.iter().enumerate() {
        preds[i] = s.pred;
    }
    let count = held(&m.systems, m.count).len();
    Links { preds, count }
}

// The place one link on; beyond the last system, and from the fixed one, that is place 0.
pub fn pred_of(preds: &[u8], place: usize) -> usize
    ensures { result ≡ pred_of (linked_by preds.now) place }
{
    if place == 0 {
        return 0;
    }
    match preds.get(place - 1) {
        Some(pred) => *pred as usize,
        None => 0,
    }
}

// The chain from a place ends, in as many links as there are systems.
fn ends(preds: &[u8], place: usize) -> bool
    ensures { result ≡ eqb (hop (linked_by preds.now) (length preds.now) place) 0 }
{
    let mut at = place;
    for _ in preds {
        if at == 0 {
            return true;
        }
        at = pred_of(preds, at);
    }
    at == 0
}

// From no place do the links go round for ever.
pub fn no_ring(preds: &[u8]) -> bool
    ensures { result ≡ no_ring (linked_by preds.now) }
{
    for place in 0..=preds.len() {
        if !ends(preds, place) {
            return false;
        }
    }
    true
}

// What a walk that looks for a place gives: whether the place turned up, and how many systems were looked at, that one among them. (No Option: the number
// is told either way.)
#[derive(Clone, Copy)]
pub struct Search {
    pub found: bool,
    pub looked: usize,
}

// From place q down its chain until place k turns up, or the fixed system has been looked at. So many were looked at before; when they are as many as
// end says, it stops all the same, since links may go round.
pub fn look_down(preds: &[u8], k: usize, q: usize, before: usize, end: usize) -> Search
    ensures { search_of result ≡ after before (search (eqb k) (down (linked_by preds.now) (end - before) q)) }
{
    let mut at = q;
    for looked in before..end {
        if at == k {
            return Search {
                found: true,
                looked: looked + 1,
            };
        }
        if at == 0 {
            return Search {
                found: false,
                looked: looked + 1,
            };
        }
        at = pred_of(preds, at);
    }
    Search {
        found: false,
        looked: end.max(before),
    }
}

// Place a is on the chain of place q.
pub fn on_chain(preds: &[u8], a: usize, q: usize) -> bool
    ensures { result ≡ on_chain (linked_by preds.now) a q }
{
    q != 0 && look_down(preds, a, pred_of(preds, q), 0, preds.len() + 1).found
}
