// The reason of a refusal in words, for whoever sits at a terminal.
#![tactic(auto)]

ghost use Rattle.std.specs.Prelude.{◌≡◌, ◌≤◌, length};
ghost use Rattle.model.specs.Limits.{buffer_limit};
ghost use Rattle.model.specs.Reasons.{reason, reason_line};
ghost use Rattle.print.specs.Over.{Wrote};

use print::{put_byte, put_decimal, put_text};

// The words alone; every byte has some.
#[tactic(auto, unfolding(model::specs::Reasons::reason, model::specs::Reasons::later_reason))]
fn words_of(number: u8) -> &'static [u8]
    ensures { result.now ≡ reason number }
{
    match number {
        1 => b"not well formed: no start gives such a state",
        2 => b"short: the lent buffer has under 4096 bytes",
        3 => b"unreadable: longer than 120 bytes, or with a byte that cannot be printed",
        4 => b"no command: no word at all, or an unknown one",
        5 => b"malformed: too few words or too many, or one that has not the form asked for",
        6 => b"beyond: offset past the limit, or no quarter turn",
        7 => b"absent: there is no system of that name",
        8 => b"reserved: the name is kept for a fixed system",
        9 => b"locked: this needs level 1 (CCL 1 ADVANCED)",
        10 => b"wrong type: no link goes there, or a system named is of another type or group",
        11 => b"in use: it is enabled, or an enabled system hangs on it",
        12 => b"ring: a system would hang on itself",
        13 => b"full: there are 16 systems already",
        14 => b"no image: no memory is saved as these bytes",
        15 => b"turned: the platform's U, V and W are not all zero",
        20 => {
            b"needed: it was saved in use, and the next start has it so; WPA SKS once it is out of use frees it"
        }
        _ => b"refused",
    }
}

// The number, a colon, the words, and LF.
pub fn put_reason(number: u8, out: &mut [u8]) -> usize
    requires { buffer_limit ≤ length out.old }
    ensures { Wrote (reason_line number) out.old 0 out.new result }
{
    let a = put_decimal(out, 0, u64::from(number));
    let b = put_text(out, a, b": ");
    let c = put_text(out, b, words_of(number));
    put_byte(out, c, b'\n')
}
