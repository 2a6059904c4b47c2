// Axis pairs of a definition, read left to right.
ghost use Rattle.std.specs.Prelude.{◌≡◌, List, map, ◌≤◌, ℤ, length};
ghost use Rattle.std.proofs.Math.Option.{some};
ghost use Rattle.model.specs.Request.{axis, may_come, in_range};
ghost use Rattle.text.specs.Cursor.{word_of, words_from, Within};
ghost use Rattle.facts.specs.Refusals.{told};
ghost use Rattle.text.specs.Pairs.{ranged, pairs_read, values_of};

use super::numbers::{Num, is_wrong, step, value_of};
use super::values::{angle_fine, offset_fine, quarter_turns};
use super::words::{Word, next_word, past, upper};
use facts::kinds::first_axis;
use facts::limits::AXES;
use facts::refusals::Refusal;
use model::{Kind, Turns, Vec3};

// The place of an axis word; for any other the place behind them. (No Option: it is the definitions' `axis`, by which `read_pairs` is promised.)
#[tactic(auto, using(crate::proofs::PairLaws::axis_none))]
fn axis_of(line: &[u8], w: Word) -> usize
    requires { Within line.now w }
    ensures { result ≡ axis (word_of line.now w) }
{
    let [letter] = &line[w.start..w.end] else {
        return AXES;
    };
    match upper(*letter) {
        b'X' => 0,
        b'Y' => 1,
        b'Z' => 2,
        b'U' => 3,
        b'V' => 4,
        b'W' => 5,
        _ => AXES,
    }
}

// Whether the command has the axis and it has not come yet.
fn may_come(kind: Kind, i: usize, came: [bool; AXES]) -> bool
    ensures { (values : List ℤ) → length values ≡ length came → result ≡ may_come kind i (values_of came values) }
{
    first_axis(kind) <= i && i < AXES && !came[i]
}

fn in_range(values: [i64; AXES]) -> bool
    ensures { result ≡ in_range (map some values) }
{
    let [x, y, z, u, v, w] = values;
    offset_fine(x) & offset_fine(y) & offset_fine(z) & angle_fine(u) & angle_fine(v) & angle_fine(w)
}

// Values of well-formed pairs, as they are kept.
fn kept(values: [i64; AXES]) -> Result<(Vec3, Turns), Refusal>
    ensures { told (λ p. p) result ≡ ranged (map some values) }
{
    if !in_range(values) {
        return Err(Refusal::Beyond);
    }
    let [x, y, z, u, v, w] = values;
    let turns = Turns {
        u: quarter_turns(u),
        v: quarter_turns(v),
        w: quarter_turns(w),
    };
    Ok((Vec3 { x, y, z }, turns))
}

// The pairs from a place to the line's end. A malformed word ends the reading at once, so that 5 comes before 6 wherever the values stand.
// (Document 01 binds this form: two nested loops, and a label that the inner one breaks out of.)
pub fn read_pairs(line: &[u8], from: usize, kind: Kind) -> Result<(Vec3, Turns), Refusal>
    requires { from ≤ length line.now }
    ensures { told (λ p. p) result ≡ pairs_read kind (words_from line.now from) }
{
    let mut values = [0i64; AXES];
    let mut came = [false; AXES];
    let mut at = from;
    'pairs: loop {
        let a = next_word(line, at);
        if a.is_empty() {
            return kept(values);
        }
        let i = axis_of(line, a);
        if !may_come(kind, i, came) {
            break;
        }
        at = past(line, a.end, true);
        let mut n = Num::Start;
        while at < line.len() {
            let b = line[at];
            if b == b' ' {
                break;
            }
            n = step(n, b);
            if is_wrong(n) {
                break 'pairs;
            }
            at += 1;
        }
        let Some(z) = value_of(n) else {
            break;
        };
        values[i] = z;
        came[i] = true;
    }
    Err(Refusal::Malformed)
}
