// Why a call or a line is refused, and the number that says so.
ghost use Rattle.std.specs.Prelude.{◌≡◌};
ghost use Rattle.model.specs.Refusals.{of_line?};
ghost use Rattle.facts.specs.Refusals.{number_of, outcome};

#[derive(Clone, Copy, PartialEq, Eq)]
pub enum Refusal {
    // The state is not well formed.
    IllFormed = 1,
    // The lent buffer is too short.
    Short = 2,
    // The line is too long, or has a byte that no line may have.
    Unreadable = 3,
    // The first word is no command.
    Unknown = 4,
    // The arguments have another form.
    Malformed = 5,
    // A value lies outside its range.
    Beyond = 6,
    // A system that must be there is not.
    Absent = 7,
    // A name that no user system may have.
    Reserved = 8,
    // The level is too low.
    Locked = 9,
    // A system of another type, or of another group.
    OtherType = 10,
    // The system is in use.
    InUse = 11,
    // A chain would close to a ring.
    Ring = 12,
    // No place is left for a new name.
    Full = 13,
    // The bytes are no image.
    NoImage = 14,
    // The platform stands turned: an angle of its position is not zero.
    Aslant = 15,
    // The name is in use in the permanent memory, so that the next start needs it.
    Needed = 20,
}

impl From<Refusal> for u8 {
    ghost from_gives = { λ why n. n ≡ number_of why };

    fn from(why: Refusal) -> u8 {
        why as u8
    }
}

// The number of an outcome: 0 where nothing is refused.
pub fn number_told<T: Copy>(r: Result<T, Refusal>) -> u8
    ensures { result ≡ outcome r }
{
    match r {
        Ok(_) => 0,
        Err(why) => u8::from(why),
    }
}

// A line can be refused with the number. (It is a byte, and no refusal, since it is asked of the last error of any state that is handed over.)
pub fn of_line(n: u8) -> bool
    ensures { result ≡ of_line? n }
{
    ((2 <= n) & (n <= 13)) | (n == 15) | (n == 20)
}
