// Refusals, and the number of each.

#![tactic(auto)]

ghost use Rattle.std.specs.Prelude.{◌≡◌};
ghost use Rattle.refusals.specs.View.{number_of, answer_of};

// Why an image does not open (1 to 8), or a call changes nothing.
#[derive(Clone, Copy, Debug, PartialEq, Eq)]
pub enum Refusal {
    Length = 1,
    Magic = 2,
    Version = 3,
    Checksum = 4,
    Geometry = 5,
    Index = 6,
    Regions = 7,
    Paths = 8,
    // A version that is not written.
    Later = 9,
    // A path or name argument that is not allowed.
    Name = 10,
    Absent = 11,
    Live = 12,
    Orphan = 13,
    NotEmpty = 14,
    NoSlots = 15,
    NoBlocks = 16,
    NotAFile = 17,
    TooShort = 18,
    Repeated = 19,
}

// Its number, as C has it.
impl From<Refusal> for u32 {
    ghost from_gives = { λ r n. n ≡ number_of r };

    fn from(r: Refusal) -> u32 {
        r as u32
    }
}

// The number that an exported call answers: 0, or the refusal's.
pub fn answer(r: Result<(), Refusal>) -> u32
    ensures { result ≡ answer_of r }
{
    match r {
        Ok(()) => 0,
        Err(e) => u32::from(e),
    }
}
