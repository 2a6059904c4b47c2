// The factory memory, and the system that fills a place where there is none.
ghost use Rattle.std.specs.Prelude.{◌≡◌, true};
ghost use Rattle.model.specs.Memory.{factory, blank};
ghost use Rattle.model.specs.Stored.{system_of, memory_of, name_shaped, memory_shaped};

use facts::limits::MAX_SYSTEMS;
use facts::names::no_name;
use model::{Enabled, Kind, Memory, OperatingPart, System, Turns, Vec3};

pub fn blank_system() -> System
    ensures stands_for { system_of result ≡ blank }
    ensures shaped { name_shaped result ≡ true }
{
    let name = no_name();
    let offset = Vec3 { x: 0, y: 0, z: 0 };
    let turns = Turns { u: 0, v: 0, w: 0 };
    let kind = Kind::Ksd;
    System {
        kind,
        name,
        offset,
        turns,
        pred: 0,
    }
}

// No user systems, the fixed ones enabled.
pub fn factory_memory() -> Memory
    ensures stands_for { memory_of result ≡ factory }
    ensures shaped { memory_shaped result ≡ true }
{
    let blank = blank_system();
    let systems = [blank; MAX_SYSTEMS];
    let operating = OperatingPart::Single(0);
    let enabled = Enabled {
        operating,
        orientational: 0,
        levelling: 0,
    };
    Memory {
        systems,
        count: 0,
        enabled,
    }
}
