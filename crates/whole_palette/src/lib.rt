// Whole pictures on panels with a palette: the calls `scale_palette` and `scale9x_palette`. Each word is replaced by the nearest entry, and
// the replaced picture is enlarged by the calls of `whole`.
#![tactic(auto)]

ghost use Rattle.std.specs.Prelude.{◌≡◌, ◌*◌};
ghost use Rattle.picture.specs.Answer.{refusal_of as answered};
ghost use Rattle.sizes.specs.Sizes.{asked_of, refusal_of};
ghost use Rattle.whole_palette.specs.Calls.{ScalesBy, ScalesBy9, refusal_palette};

use clarity::Clarity;
use palette::replace;
use picture::refusal::Refusal;
use sizes::{Lengths, Times, area, refuse};
use whole::{scale, scale9x};

// The most entries that a palette has.
const ENTRIES: usize = 256;

// Why a call is turned away: by its sides, buffers and setting, of which the replaced picture takes as many words as the picture; and last
// by how many entries its palette has.
#[tactic(auto, using(crate::proofs::Refusals::refused_before), unfolding(crate::specs::Calls::refusal_palette))]
fn refuse_by(
    times: Times,
    clarity: Clarity,
    w: u32,
    h: u32,
    entries: usize,
    lent: Lengths,
) -> Result<(), Refusal>
    ensures { answered result ≡ refusal_palette (refusal_of clarity (asked_of times w h (w * h) (w * h)) lent) entries }
{
    refuse(times, clarity, w, h, area(w, h), lent)?;
    if (entries == 0) | (ENTRIES < entries) {
        return Err(Refusal::Palette);
    }
    Ok(())
}

// Three-times of the replaced picture, which fills the front of `replaced`. A refusal leaves every buffer as it was.
pub fn scale_palette(
    w: u32,
    h: u32,
    clarity: Clarity,
    picture: &[u32],
    palette: &[u32],
    replaced: &mut [u32],
    output: &mut [u32],
    singles: &mut [f32],
    bytes: &mut [u8],
) -> Result<(), Refusal>
    ensures { ScalesBy clarity w h picture.now palette.now replaced.old output.old
        singles.old bytes.old
        replaced.new output.new singles.new bytes.new (answered result) }
{
    let lent = Lengths::of(picture, replaced, output, &[], singles, bytes);
    refuse_by(Times::Three, clarity, w, h, palette.len(), lent)?;
    let n = area(w, h);
    replace(picture, n, palette, replaced);
    scale(w, h, clarity, &replaced[..n], output, singles, bytes)
}

// Nine-times of the replaced picture: both passes, at the given clarity.
pub fn scale9x_palette(
    w: u32,
    h: u32,
    clarity: Clarity,
    picture: &[u32],
    palette: &[u32],
    replaced: &mut [u32],
    output: &mut [u32],
    middle: &mut [u32],
    singles: &mut [f32],
    bytes: &mut [u8],
) -> Result<(), Refusal>
    ensures { ScalesBy9 clarity w h picture.now palette.now replaced.old output.old
        middle.old singles.old bytes.old
        replaced.new output.new middle.new singles.new bytes.new (answered result) }
{
    let lent = Lengths::of(picture, replaced, output, middle, singles, bytes);
    refuse_by(Times::Nine, clarity, w, h, palette.len(), lent)?;
    let n = area(w, h);
    replace(picture, n, palette, replaced);
    scale9x(
        w,
        h,
        clarity,
        &replaced[..n],
        output,
        middle,
        singles,
        bytes,
    )
}
