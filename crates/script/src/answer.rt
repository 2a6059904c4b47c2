// The answer to a line of a script, as a line of text.
ghost use Rattle.std.specs.Prelude.{◌+◌, ◌≤◌, length};
ghost use Rattle.print.specs.Over.{Wrote};
ghost use Rattle.machine.specs.Calls.{usage_of};
ghost use Rattle.script.specs.Hex.{hexed};
ghost use Rattle.script.specs.Answer.{head, said, usage_text, longest_usage, complaint, longest_answer};

use crate::hex::put_hex;
use chains::links::Search;
use facts::refusals::{Refusal, number_told};
use print::{put_byte, put_decimal, put_text};

// The number of a call, and the space behind it.
fn put_head(out: &mut [u8], at: usize, number: u8) -> usize
    requires { at + length (head number) ≤ length out.old }
    ensures { Wrote (head number) out.old at out.new result }
{
    let i = put_decimal(out, at, number as u64);
    put_byte(out, i, b' ')
}

// A call: its number, and what it wrote.
#[tactic(auto, using(crate::proofs::AnswerLaws::length_said, crate::proofs::HexLaws::length_hexed))]
pub fn put_said(out: &mut [u8], at: usize, number: u8, text: &[u8]) -> usize
    requires { at + length (said number (hexed text.now)) ≤ length out.old }
    ensures { Wrote (said number (hexed text.now)) out.old at out.new result }
{
    let i = put_head(out, at, number);
    let k = put_hex(out, i, text);
    put_byte(out, k, b'\n')
}

// What the question of use tells, and nothing where it was refused.
fn put_usage(out: &mut [u8], at: usize, told: Result<Search, Refusal>) -> usize
    requires { at + longest_usage ≤ length out.old }
    ensures wrote { Wrote (usage_text (usage_of told)) out.old at out.new result }
    ensures short { result ≤ at + longest_usage }
{
    let Ok(search) = told else {
        return at;
    };
    let i = put_byte(out, at, b'0' + u8::from(search.found));
    let j = put_byte(out, i, b' ');
    put_decimal(out, j, search.looked as u64)
}

// The question of use: its number, and what it tells.
pub fn put_told(out: &mut [u8], at: usize, told: Result<Search, Refusal>) -> usize
    requires { at + longest_answer ≤ length out.old }
    ensures wrote { Wrote (said (usage_of told).number (usage_text (usage_of told))) out.old at out.new result }
    ensures within { result ≤ length out.old }
{
    let number = number_told(told);
    let i = put_head(out, at, number);
    let k = put_usage(out, i, told);
    put_byte(out, k, b'\n')
}

// No directive: the number of the line.
#[tactic(auto, using(crate::proofs::AnswerLaws::length_complaint))]
pub fn put_complaint(out: &mut [u8], at: usize, line: u64) -> usize
    requires { at + length (complaint line) ≤ length out.old }
    ensures { Wrote (complaint line) out.old at out.new result }
{
    let i = put_text(out, at, b"? ");
    let j = put_decimal(out, i, line);
    put_byte(out, j, b'\n')
}
