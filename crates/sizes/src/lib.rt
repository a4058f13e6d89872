// Why a whole picture is refused: by its sides, by the lengths of what is lent, and by its setting of clarity. `specs/Sizes.antt` has the
// lengths that each call asks for.
#![tactic(auto)]

ghost use Rattle.std.specs.Prelude.{◌≡◌, ◌*◌, ◌≤◌, length};
ghost use Rattle.picture.specs.Answer.{refusal_of as answered};
ghost use Rattle.sizes.specs.Sizes.{asked_of, lent9, limit_of, refusal_of, words_within};

use clarity::{Clarity, lawful};
use picture::refusal::Refusal;

// The largest side of a picture that is enlarged three times, and nine times: 3 * 682 is within 2,048.
const SIDE3: u32 = 2048;

const SIDE9: u32 = 682;

// How many times as large a picture becomes.
#[derive(Clone, Copy)]
pub enum Times {
    Three,
    Nine,
}

// What a call asks for: sides within a limit, and so many words of the picture, of the replaced picture, of the output and of the middle,
// and elements of both singles and bytes.
#[derive(Clone, Copy)]
pub struct Asked {
    pub limit: u32,
    pub w: u32,
    pub h: u32,
    pub picture: usize,
    pub replaced: usize,
    pub output: usize,
    pub middle: usize,
    pub scratch: usize,
}

// The lengths of the buffers that it is lent.
#[derive(Clone, Copy)]
pub struct Lengths {
    pub picture: usize,
    pub replaced: usize,
    pub output: usize,
    pub middle: usize,
    pub singles: usize,
    pub bytes: usize,
}

impl Lengths {
    // Of these buffers; a call without a replaced picture or a middle lends an empty one.
    pub fn of(
        picture: &[u32],
        replaced: &[u32],
        output: &[u32],
        middle: &[u32],
        singles: &[f32],
        bytes: &[u8],
    ) -> Lengths
        ensures { result ≡ lent9 (length replaced.now) picture.now output.now middle.now singles.now bytes.now }
    {
        Lengths {
            picture: picture.len(),
            replaced: replaced.len(),
            output: output.len(),
            middle: middle.len(),
            singles: singles.len(),
            bytes: bytes.len(),
        }
    }
}

// Why a call is turned away. What is lent is looked at before the setting.
fn refusal(clarity: Clarity, asked: Asked, lent: Lengths) -> Result<(), Refusal>
    ensures { answered result ≡ refusal_of clarity asked lent }
{
    if (asked.limit < asked.w) | (asked.limit < asked.h) {
        return Err(Refusal::Side);
    }
    if lent.picture < asked.picture {
        return Err(Refusal::Picture);
    }
    if lent.output < asked.output {
        return Err(Refusal::Output);
    }
    let scratch = asked.scratch;
    if (lent.middle < asked.middle)
        | (lent.replaced < asked.replaced)
        | (lent.singles < scratch)
        | (lent.bytes < scratch)
    {
        return Err(Refusal::Scratch);
    }
    if !lawful(clarity) {
        return Err(Refusal::Clarity);
    }
    Ok(())
}

// The words of a picture.
pub fn area(w: u32, h: u32) -> usize
    ensures { result ≡ w * h }
{
    (w as usize) * (h as usize)
}

// The words of a picture within the limit, and 0 past it, where no length is looked at.
fn words_of(side: u32, w: u32, h: u32) -> usize
    requires { side ≤ 2048 }
    ensures { result ≡ words_within side w h }
{
    if (side < w) | (side < h) {
        return 0;
    }
    area(w, h)
}

impl Times {
    // What a call asks for: a word takes so many words of the output and of the middle, and elements of singles and bytes.
    fn asks(self, w: u32, h: u32, replaced: usize) -> Asked
        ensures { result ≡ asked_of self w h (words_within (limit_of self) w h) replaced }
    {
        let (limit, output, middle, scratch) = match self {
            Times::Three => (SIDE3, 9, 0, 8),
            Times::Nine => (SIDE9, 81, 9, 72),
        };
        let n = words_of(limit, w, h);
        Asked {
            limit,
            w,
            h,
            picture: n,
            replaced,
            output: output * n,
            middle: middle * n,
            scratch: scratch * n,
        }
    }
}

// Why a call is turned away; `replaced` is how many words the replaced picture takes, 0 where there is none.
pub fn refuse(
    times: Times,
    clarity: Clarity,
    w: u32,
    h: u32,
    replaced: usize,
    lent: Lengths,
) -> Result<(), Refusal>
    ensures { answered result ≡ refusal_of clarity (asked_of times w h (w * h) replaced) lent }
{
    refusal(clarity, times.asks(w, h, replaced), lent)
}
