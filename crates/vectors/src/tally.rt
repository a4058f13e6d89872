// What was compared so far, and the digest of the part that is being compared.
use crate::recorded;
use picture::refusal::Refusal;
use std::io::Read;
use std::{fmt, io};

#[derive(Clone, Copy)]
pub struct Tally {
    // Whether the picture's values are recorded in full, and not by digests.
    full: bool,
    digest: u32,
    pictures: u64,
    values: u64,
    digests: u64,
    differences: u64,
}

// FNV-1a, over words in place of bytes.
const START: u32 = 2166136261;

const FACTOR: u32 = 16777619;

impl Tally {
    // Nothing compared so far.
    pub fn new() -> Tally {
        Tally {
            full: false,
            digest: START,
            pictures: 0,
            values: 0,
            digests: 0,
            differences: 0,
        }
    }

    // A difference where this holds.
    fn differs(&mut self, so: bool) {
        self.differences = self.differences.wrapping_add(u64::from(so));
    }

    // A call answered; a refusal is a difference.
    pub fn called(&mut self, answer: Result<(), Refusal>) {
        self.differs(answer.is_err());
    }

    // A picture begins, with the answer of its first call.
    pub fn picture(&mut self, full: bool, answer: Result<(), Refusal>) {
        self.full = full;
        self.pictures = self.pictures.wrapping_add(1);
        self.called(answer);
    }

    // One value: beside the next recorded one, or into the digest.
    pub fn value(&mut self, input: &mut impl Read, word: u32) -> io::Result<()> {
        if self.full {
            self.values = self.values.wrapping_add(1);
            self.differs(word != recorded::next(input)?);
        } else {
            self.digest = (self.digest ^ word).wrapping_mul(FACTOR);
        }
        Ok(())
    }

    // A part ends: its digest beside the next recorded one.
    pub fn part(&mut self, input: &mut impl Read) -> io::Result<()> {
        if self.full {
            return Ok(());
        }
        self.digests = self.digests.wrapping_add(1);
        self.differs(self.digest != recorded::next(input)?);
        self.digest = START;
        Ok(())
    }
}

// What was compared, and how many values differ.
impl fmt::Display for Tally {
    fn fmt<W: fmt::Write>(&self, f: &mut fmt::Formatter<W>) -> fmt::Result {
        let Tally {
            pictures,
            values,
            digests,
            differences,
            ..
        } = *self;
        write!(
            f,
            "{pictures} pictures, {values} values and {digests} digests: {differences} differences"
        )
    }
}
