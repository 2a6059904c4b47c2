// KEN?: one operating system, or work and tool; then the other two groups.
ghost use Rattle.std.specs.Prelude.{◌+◌, ◌≤◌, ◌<◌, length};
ghost use Rattle.model.specs.Limits.{name_limit, buffer_limit};
ghost use Rattle.model.specs.Stored.{system_of, memory_of, FineMemory};
ghost use Rattle.model.specs.Effects.{tool_half};
ghost use Rattle.model.specs.Request.{enabled_ones};
ghost use Rattle.model.specs.Reply.{listed};
ghost use Rattle.print.specs.Over.{Wrote};
ghost use Rattle.reply.specs.Lines.{Replied, further, enabled_text};
ghost use Rattle.reply.specs.EnabledText.{tool_text, groups_text, GroupsFit};

use crate::line::put_enabled;
use crate::slot;
use facts::halves::{operating_place, tool_half};
use model::{Enabled, Group, Memory, OperatingPart, System};
use print::{put_byte, put_text};

// A further line, in what is left of the buffer; the place after it.
fn put_next(reply: &mut [u8], at: usize, g: Group, place: u8, s: System) -> usize
    requires { (0 < place → s.name.len ≤ name_limit) × (at + length (further (enabled_text g place (system_of s))) ≤ length reply.old) }
    ensures { Wrote (further (enabled_text g place (system_of s))) reply.old at reply.new result }
{
    let part = &mut reply[at..];
    let a = put_text(part, 0, b" \n");
    at + put_enabled(part, a, g, place, s)
}

// The tool's line, where a pair is enabled.
fn put_tool(reply: &mut [u8], at: usize, part: OperatingPart, s: System) -> usize
    requires { (0 < tool_half part → s.name.len ≤ name_limit) × (at + length (tool_text part (system_of s)) ≤ length reply.old) }
    ensures { Wrote (tool_text part (system_of s)) reply.old at reply.new result }
{
    match part {
        OperatingPart::Single(_) => at,
        OperatingPart::Pair(_, tool) => put_next(reply, at, Group::Operating, tool, s),
    }
}

// The lines of the other two groups, o and l where they are user systems, and the end of the last.
fn put_groups(reply: &mut [u8], at: usize, e: Enabled, o: System, l: System) -> usize
    requires { GroupsFit e o l × (at + length (groups_text e (system_of o) (system_of l)) ≤ length reply.old) }
    ensures { Wrote (groups_text e (system_of o) (system_of l)) reply.old at reply.new result }
{
    let i = put_next(reply, at, Group::Orientational, e.orientational, o);
    let j = put_next(reply, i, Group::Levelling, e.levelling, l);
    put_byte(reply, j, b'\n')
}

pub fn enabled(m: Memory, reply: &mut [u8]) -> usize
    requires fine_memory { FineMemory m }
    requires room { buffer_limit ≤ length reply.old }
    ensures { Replied (listed (memory_of m) enabled_ones) reply.old reply.new result }
{
    let e = m.enabled;
    let part = e.operating;
    let place = operating_place(part);
    let a = m.systems[slot(place)];
    let b = m.systems[slot(tool_half(part))];
    let o = m.systems[slot(e.orientational)];
    let l = m.systems[slot(e.levelling)];
    let i = put_enabled(reply, 0, Group::Operating, place, a);
    let j = put_tool(reply, i, part, b);
    put_groups(reply, j, e, o, l)
}
