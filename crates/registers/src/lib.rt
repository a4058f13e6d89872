// Sixteen registers before a session, as bytes: what they start as, what a read gives, what a write stores in them, and what a command's
// answer leaves in them. `specs/Address.antt` has their addresses in order, `specs/Registers.antt` says what becomes of each. No crate
// makes the session's calls by them yet.
#![tactic(auto)]

ghost use Rattle.std.specs.Prelude.{◌≡◌};
ghost use Rattle.picture.specs.Answer.{refusal_of};
ghost use Rattle.registers.specs.Address as address;
ghost use Rattle.registers.specs.Registers.{two_bytes, four_bytes, stale_bit, status_of, line_of};
ghost use Rattle.registers.specs.Registers.{with_flags, with_mask, with_byte, with_answer, with_raised, after_paint, after_refresh};
ghost use Rattle.registers.specs.Registers.{refusal_write, StartsRegisters, ReadsByte};
ghost use Rattle.registers.specs.Answers.{command_of, number_of, value_in};

use picture::refusal::Refusal;

// What a byte written to address 0 asks of the session.
#[derive(Clone, Copy, Debug, PartialEq, Eq)]
pub enum Command {
    Paint = 1,
    Refresh = 2,
}

impl Command {
    // The byte that asks for it.
    pub fn number(self) -> u8
        ensures { result ≡ number_of self }
    {
        self as u8
    }
}

impl TryFrom<u8> for Command {
    type Error = Refusal;

    ghost try_from_gives = { λ v r. r ≡ command_of v };

    fn try_from(value: u8) -> Result<Command, Refusal> {
        match value {
            1 => Ok(Command::Paint),
            2 => Ok(Command::Refresh),
            _ => Err(Refusal::Register),
        }
    }
}

// Bit 0 of the status.
fn stale_bit(n: u32) -> u8
    ensures { result ≡ stale_bit n }
{
    u8::from(n != 0)
}

// The line.
fn line_of(f: u8, m: u8) -> u8
    ensures { result ≡ line_of f m }
{
    u8::from(f & m != 0)
}

// The status after a command.
fn status_of(s: u8, refusal: u8, stale: u32) -> u8
    ensures { result ≡ status_of s refusal stale }
{
    if refusal == 0 {
        return stale_bit(stale);
    }
    s % 2 + 2
}

// Why a write is refused before the session is asked.
pub fn refuse_write(address: u32, value: u8) -> Result<(), Refusal>
    ensures { refusal_of result ≡ refusal_write address value }
{
    match address {
        0 => {
            let _ = Command::try_from(value)?;
            Ok(())
        }
        2..=13 => Ok(()),
        _ => Err(Refusal::Register),
    }
}

// The sixteen bytes, whatever they hold.
#[derive(Clone, Copy, Debug, PartialEq, Eq)]
pub struct Registers(pub [u8; 16]);

impl Registers {
    // The registers at the start, by the stale count that the opening answered.
    pub fn start(stale: u32) -> Registers
        ensures { StartsRegisters stale result.0 }
    {
        let mut bytes = [0; 16];
        bytes[1] = stale_bit(stale);
        Registers(bytes)
    }

    // The byte at an address.
    pub fn read(&self, address: u32) -> Result<u8, Refusal>
        ensures { ReadsByte self.now.0 address (record { refusal = refusal_of result; value = value_in result }) }
    {
        if address > 15 {
            return Err(Refusal::Register);
        }
        Ok(self.0[address as usize])
    }

    // What a command finds, each number its lowest byte first: column, row and word of a paint, and the count of a refresh.
    pub fn paint_column(self) -> u32
        ensures { result ≡ two_bytes self.0 address.paint_column }
    {
        u16::from_le_bytes([self.0[4], self.0[5]]) as u32
    }

    pub fn paint_row(self) -> u32
        ensures { result ≡ two_bytes self.0 address.paint_row }
    {
        u16::from_le_bytes([self.0[6], self.0[7]]) as u32
    }

    pub fn paint_word(self) -> u32
        ensures { result ≡ four_bytes self.0 address.paint_word }
    {
        u32::from_le_bytes([self.0[8], self.0[9], self.0[10], self.0[11]])
    }

    pub fn refresh_count(self) -> u32
        ensures { result ≡ two_bytes self.0 address.refresh_count }
    {
        u16::from_le_bytes([self.0[12], self.0[13]]) as u32
    }

    // Other flags, or another mask, and the line by them.
    fn with_flags(mut self, f: u8) -> Registers
        ensures { result.0 ≡ with_flags self.0 f }
    {
        self.0[2] = f;
        self.0[15] = line_of(f, self.0[3]);
        self
    }

    fn with_mask(mut self, m: u8) -> Registers
        ensures { result.0 ≡ with_mask self.0 m }
    {
        self.0[3] = m;
        self.0[15] = line_of(self.0[2], m);
        self
    }

    // A byte that is no command written at an address from 2 to 13; past the last register nothing is stored.
    #[tactic(auto, unfolding(crate::specs::Registers::with_byte))]
    pub fn with_byte(mut self, address: u32, value: u8) -> Registers
        ensures { result.0 ≡ with_byte self.0 address value }
    {
        match address {
            2 => self.with_flags(self.0[2] & !value),
            3 => self.with_mask(value),
            0..16 => {
                self.0[address as usize] = value;
                self
            }
            _ => self,
        }
    }

    // Command, status and refusal after a command.
    fn with_answer(mut self, command: Command, refusal: u8, stale: u32) -> Registers
        ensures { result.0 ≡ with_answer self.0 (number_of command) refusal stale }
    {
        self.0[0] = command.number();
        self.0[1] = status_of(self.0[1], refusal, stale);
        self.0[14] = refusal;
        self
    }

    // The registers after a paint. A refusal comes as its number: what a byte that is no refusal's number leaves is promised too.
    #[tactic(auto, unfolding(crate::specs::Registers::after_paint))]
    pub fn after_paint(self, refusal: u8, stale: u32) -> Registers
        ensures { result.0 ≡ after_paint self.0 refusal stale }
    {
        self.with_answer(Command::Paint, refusal, stale)
    }

    // Bit 0 of the flags raised, or not.
    fn with_raised(self, empties: bool) -> Registers
        ensures { result.0 ≡ with_raised empties self.0 }
    {
        if empties {
            return self.with_flags(self.0[2] | 1);
        }
        self
    }

    // The registers after a refresh, its refusal as a number likewise: where nothing is left, the blocks drawn are those that were stale
    // before it.
    #[tactic(auto, unfolding(crate::specs::Registers::after_refresh))]
    pub fn after_refresh(self, refusal: u8, drawn: u32, left: u32) -> Registers
        ensures { result.0 ≡ after_refresh self.0 drawn refusal left }
    {
        let empties = refusal == 0 && 0 < drawn && left == 0;
        self.with_raised(empties)
            .with_answer(Command::Refresh, refusal, left)
    }
}
