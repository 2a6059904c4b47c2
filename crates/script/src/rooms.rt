// The room that is lent for lines, and that no line outgrows.
ghost use Rattle.std.specs.Prelude.{◌*◌, ◌≤◌, length};
ghost use Rattle.script.specs.Directive.{longest_line, longest_lent};
ghost use Rattle.script.specs.Answer.{longest_answer};

// For the bytes that a line spells, for what a call is lent, and for the answers: every line can be decoded, every buffer lent, and an answer given.
#[derive(Drop)]
pub struct Rooms<'a> {
    pub bytes: &'a mut [u8],
    pub reply: &'a mut [u8],
    pub out: &'a mut [u8],
    ghost decodes: { longest_line ≤ 2 * length bytes.now },
    ghost lends: { longest_lent ≤ length reply.now },
    ghost answers: { longest_answer ≤ length out.now },
}
