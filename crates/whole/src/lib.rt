// Whole pictures: the calls `scale` and `scale9x`, three-times and nine-times, into buffers that the caller lends. What they run once
// nothing refuses them is that of `enlarged`.
#![tactic(auto)]

ghost use Rattle.picture.specs.Answer.{refusal_of};
ghost use Rattle.whole.specs.Calls.{Scales, Scales9};

use clarity::Clarity;
use enlarged::enlarge;
use picture::refusal::Refusal;
use picture::whole::Picture;
use sizes::{Lengths, Times, area, refuse};

// ScaleFX three-times. A refusal leaves every buffer as it was.
pub fn scale(
    w: u32,
    h: u32,
    clarity: Clarity,
    picture: &[u32],
    output: &mut [u32],
    singles: &mut [f32],
    bytes: &mut [u8],
) -> Result<(), Refusal>
    ensures { Scales clarity w h picture.now output.old singles.old bytes.old
        output.new singles.new bytes.new (refusal_of result) }
{
    let lent = Lengths::of(picture, &[], output, &[], singles, bytes);
    refuse(Times::Three, clarity, w, h, 0, lent)?;
    let whole = Picture {
        words: picture,
        w,
        h,
    };
    enlarge(whole, clarity, output, singles, bytes);
    Ok(())
}

// ScaleFX nine-times: three-times into the middle, and three-times again from there, both at the given clarity.
pub fn scale9x(
    w: u32,
    h: u32,
    clarity: Clarity,
    picture: &[u32],
    output: &mut [u32],
    middle: &mut [u32],
    singles: &mut [f32],
    bytes: &mut [u8],
) -> Result<(), Refusal>
    ensures { Scales9 clarity w h picture.now output.old middle.old singles.old
        bytes.old
        output.new middle.new singles.new bytes.new (refusal_of result) }
{
    let lent = Lengths::of(picture, &[], output, middle, singles, bytes);
    refuse(Times::Nine, clarity, w, h, 0, lent)?;
    let whole = Picture {
        words: picture,
        w,
        h,
    };
    enlarge(whole, clarity, middle, singles, bytes);
    let n = area(w, h);
    let m = 9 * n;
    let again = Picture {
        words: &middle[..m],
        w: 3 * w,
        h: 3 * h,
    };
    enlarge(again, clarity, output, singles, bytes);
    Ok(())
}
