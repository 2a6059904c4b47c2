// The limits, each as `Limits` of the definitions has it; how many axes there are; and what follows from these.

// User systems in a memory; also the links of the longest chain.
pub const MAX_SYSTEMS: usize = 16;

// Bytes of a name.
pub const NAME_LIMIT: usize = 16;

// An own offset, either way, in millionths of a millimetre.
pub const OFFSET_LIMIT: u64 = 2000000000;

// An angle of the platform's position, either way, in millionths of a degree.
pub const ANGLE_LIMIT: u64 = 360000000;

// Digits before a number's point.
pub const WHOLE_DIGITS: u8 = 4;

// One millimetre or one degree, in millionths.
pub const MILLION: u64 = 1000000;

// A quarter turn, in millionths of a degree.
pub const QUARTER_TURN: u64 = 90000000;

// Own turns about an axis, in quarters, and how many quarters are a whole turn.
pub const MOST_TURNS: u8 = 3;

pub const WHOLE_TURN: u8 = 4;

// The axes X Y Z U V W.
pub const AXES: usize = 6;

// The longest line, and as many bytes of a line as show that it is too long.
pub const LINE_LIMIT: usize = 120;

pub const ENOUGH: usize = LINE_LIMIT + 1;

// The least lent buffer.
pub const BUFFER_LIMIT: usize = 4096;
