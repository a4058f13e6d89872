// One picture of the recording through the whole-picture calls at the standard setting, compared in every bit.
use crate::recorded::Head;
use crate::tally::Tally;
use clarity::Clarity;
use std::io;
use std::io::Read;
use std::ops::Range;

// What the calls write. The middle is that of nine-times alone.
#[derive(Drop)]
pub struct Buffers {
    pub output: [u32; 82944],
    pub middle: [u32; 9216],
    pub singles: [f32; 73728],
    pub bytes: [u8; 73728],
}

// An element of a buffer as a recorded word.
trait Word: Copy {
    fn word(self) -> u32;
}

impl Word for u32 {
    fn word(self) -> u32 {
        self
    }
}

impl Word for u8 {
    fn word(self) -> u32 {
        u32::from(self)
    }
}

// The pattern; for what is not a number, the pattern that stands for all such.
impl Word for f32 {
    fn word(self) -> u32 {
        if self == self {
            return self.to_bits();
        }
        0x7fc0_0000
    }
}

// The elements of a range: one part of the recording. Past the buffer's end they count as 0.
fn part<T: Word>(
    input: &mut impl Read,
    t: &mut Tally,
    buffer: &[T],
    range: Range<usize>,
) -> io::Result<()> {
    for i in range {
        let word = if i < buffer.len() {
            buffer[i].word()
        } else {
            0
        };
        t.value(input, word)?;
    }
    t.part(input)
}

// The picture enlarged three times: its stages and its output.
pub fn three_times(
    input: &mut impl Read,
    t: &mut Tally,
    p: Head,
    picture: &[u32],
    lent: &mut Buffers,
) -> io::Result<()> {
    let Buffers {
        output,
        singles,
        bytes,
        ..
    } = lent;
    let answer = whole::scale(p.w, p.h, Clarity::Standard, picture, output, singles, bytes);
    t.picture(p.full, answer);
    let n = p.n as usize;
    part(input, t, singles, 0..4 * n)?;
    part(input, t, singles, 4 * n..8 * n)?;
    part(input, t, bytes, 0..4 * n)?;
    part(input, t, bytes, 4 * n..8 * n)?;
    part(input, t, output, 0..9 * n)
}

// The picture enlarged nine times, where it is recorded by digests.
pub fn nine_times(
    input: &mut impl Read,
    t: &mut Tally,
    p: Head,
    picture: &[u32],
    lent: &mut Buffers,
) -> io::Result<()> {
    if p.full {
        return Ok(());
    }
    let Buffers {
        output,
        middle,
        singles,
        bytes,
    } = lent;
    let answer = whole::scale9x(
        p.w,
        p.h,
        Clarity::Standard,
        picture,
        output,
        middle,
        singles,
        bytes,
    );
    t.called(answer);
    part(input, t, output, 0..81 * (p.n as usize))
}
