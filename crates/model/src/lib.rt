// The types that the code and the definitions share. There is no code here; the definitions are in specs/.
#![tactic(auto)]

// A signed coordinate axis.
#[derive(Clone, Copy, PartialEq, Eq)]
pub enum Dir {
    Px,
    Nx,
    Py,
    Ny,
    Pz,
    Nz,
}

// A rotation by rows: which signed coordinate of the argument each coordinate of the result is.
#[derive(Clone, Copy)]
pub struct Rot {
    pub a: Dir,
    pub b: Dir,
    pub c: Dir,
}

// An offset, in millionths of a millimetre.
#[derive(Clone, Copy)]
pub struct Vec3 {
    pub x: i64,
    pub y: i64,
    pub z: i64,
}

// Quarter turns about X, Y and Z.
#[derive(Clone, Copy)]
pub struct Turns {
    pub u: u8,
    pub v: u8,
    pub w: u8,
}

// The types of user systems.
#[derive(Clone, Copy, PartialEq, Eq)]
pub enum Kind {
    Ksd,
    Kst,
    Ksw,
    Ksb,
    Kld,
    Ksf,
}

#[derive(Clone, Copy, PartialEq, Eq)]
pub enum Group {
    Operating,
    Orientational,
    Levelling,
}

// The enabled operating part: one system, or a work and a tool half. Systems are given by their places.
#[derive(Clone, Copy)]
pub enum OperatingPart {
    Single(u8),
    Pair(u8, u8),
}

#[derive(Clone, Copy)]
pub struct Enabled {
    pub operating: OperatingPart,
    pub orientational: u8,
    pub levelling: u8,
}

// A name: the first len bytes.
#[derive(Clone, Copy)]
pub struct Name {
    pub bytes: [u8; 16],
    pub len: u8,
}

// A user system as it is stored. Its predecessor is a place: 0 is the group's fixed system, k the k-th user system.
#[derive(Clone, Copy)]
pub struct System {
    pub kind: Kind,
    pub name: Name,
    pub offset: Vec3,
    pub turns: Turns,
    pub pred: u8,
}

// A memory as it is stored: the first count systems.
#[derive(Clone, Copy)]
pub struct Memory {
    pub systems: [System; 16],
    pub count: u8,
    pub enabled: Enabled,
}

// Angles about X, Y and Z, in millionths of a degree.
#[derive(Clone, Copy)]
pub struct Angles {
    pub u: i64,
    pub v: i64,
    pub w: i64,
}

// Where the platform stands.
#[derive(Clone, Copy)]
pub struct Position {
    pub offset: Vec3,
    pub angles: Angles,
}

// The state as it is stored.
#[derive(Clone, Copy)]
pub struct State {
    pub volatile: Memory,
    pub permanent: Memory,
    pub position: Position,
    pub level: u8,
    pub error: u8,
}
