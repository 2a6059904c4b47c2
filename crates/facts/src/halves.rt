// The enabled operating part: the place that stands for it, and its halves. A half that is not there is ZERO, place 0.
ghost use Rattle.std.specs.Prelude.{◌≡◌};
ghost use Rattle.model.specs.Effects.{work_half, tool_half};
ghost use Rattle.model.specs.Stage.{operating_place};

use model::OperatingPart;

// The one system, or the work half.
pub fn operating_place(o: OperatingPart) -> u8
    ensures { result ≡ operating_place o }
{
    match o {
        OperatingPart::Single(p) => p,
        OperatingPart::Pair(w, _) => w,
    }
}

pub fn work_half(o: OperatingPart) -> u8
    ensures { result ≡ work_half o }
{
    match o {
        OperatingPart::Single(_) => 0,
        OperatingPart::Pair(w, _) => w,
    }
}

pub fn tool_half(o: OperatingPart) -> u8
    ensures { result ≡ tool_half o }
{
    match o {
        OperatingPart::Single(_) => 0,
        OperatingPart::Pair(_, t) => t,
    }
}
