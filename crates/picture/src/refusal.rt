// The refusals, by name, and their numbers; `specs/Refusal.antt` has the same names for the definitions, and `specs/Answer.antt` says which
// number a refusal has.
ghost use Rattle.std.specs.Prelude.{◌≡◌};
ghost use Rattle.picture.specs.Refusal.{all};
ghost use Rattle.picture.specs.Answer.{number_of, refusal_of};

// Why a call is refused. The first condition that holds, in the order that each call has.
#[derive(Clone, Copy, Debug, PartialEq, Eq)]
pub enum Refusal {
    // A side past its limit.
    Side = 1,
    // The picture buffer is short.
    Picture = 2,
    // The output buffer is short.
    Output = 3,
    // Singles, bytes, middle, marks or the replaced picture's buffer are short.
    Scratch = 4,
    // The position lies outside the picture.
    Outside = 5,
    // The root's operand has its sign bit set, is infinite or is not a number.
    Operand = 6,
    // The block is stale.
    Stale = 7,
    // A file under 12 bytes, its last four bytes wrong, or back wrong: not 12 + 4wh, or not the file's length.
    Trailer = 8,
    // A file longer than the program takes.
    Long = 9,
    // A lock of width and height above 0 that reaches past the picture.
    Lock = 10,
    // Another word than the one there, painted inside the lock.
    Locked = 11,
    // A list of more than 64 paints.
    Items = 12,
    // A threshold of clarity that is not above 0, is above 1 or is not a number.
    Clarity = 13,
    // A palette that is empty or has more than 256 entries.
    Palette = 14,
    // A register that is not there or cannot be written, or a command that is not one; no call answers it yet.
    Register = 15,
    // A channel's low above its high; no call answers it yet.
    Range = 16,
    // Pages out of order or repeated; no call answers it yet.
    Order = 17,
}

impl Refusal {
    // Its number.
    pub fn number(self) -> u32
        ensures { result ≡ number_of self }
    {
        self as u32
    }
}

// The number that an answer stands for: 0 where nothing is refused.
pub fn number<T>(answer: &Result<T, Refusal>) -> u32
    ensures { result ≡ refusal_of answer.now }
{
    match answer {
        Ok(_) => 0,
        Err(refusal) => refusal.number(),
    }
}

// The numbers of all of them, behind 0: those that the definitions have.
pub fn numbers() -> [u32; 18]
    ensures { result ≡ all }
{
    [
        0,
        Refusal::Side as u32,
        Refusal::Picture as u32,
        Refusal::Output as u32,
        Refusal::Scratch as u32,
        Refusal::Outside as u32,
        Refusal::Operand as u32,
        Refusal::Stale as u32,
        Refusal::Trailer as u32,
        Refusal::Long as u32,
        Refusal::Lock as u32,
        Refusal::Locked as u32,
        Refusal::Items as u32,
        Refusal::Clarity as u32,
        Refusal::Palette as u32,
        Refusal::Register as u32,
        Refusal::Range as u32,
        Refusal::Order as u32,
    ]
}
