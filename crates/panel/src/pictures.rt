// Whole pictures, at the setting that a kind and a single stand for.
ghost use Rattle.clarity.specs.Clarity.{setting_of};
ghost use Rattle.whole.specs.Calls.{Scales, Scales9};

use clarity::setting_of;
use picture::refusal::number;

// A whole picture three times as large.
#[unsafe(no_mangle)]
pub extern "C" fn panel_scale(
    w: u32,
    h: u32,
    clarity: u32,
    threshold: f32,
    picture: &[u32],
    output: &mut [u32],
    singles: &mut [f32],
    bytes: &mut [u8],
) -> u32
    ensures { Scales (setting_of clarity threshold) w h
        picture.now output.old singles.old bytes.old
        output.new singles.new bytes.new result }
{
    let setting = setting_of(clarity, threshold);
    number(&whole::scale(w, h, setting, picture, output, singles, bytes))
}

// A whole picture nine times as large.
#[unsafe(no_mangle)]
pub extern "C" fn panel_scale9x(
    w: u32,
    h: u32,
    clarity: u32,
    threshold: f32,
    picture: &[u32],
    output: &mut [u32],
    middle: &mut [u32],
    singles: &mut [f32],
    bytes: &mut [u8],
) -> u32
    ensures { Scales9 (setting_of clarity threshold) w h
        picture.now output.old middle.old singles.old bytes.old
        output.new middle.new singles.new bytes.new result }
{
    let setting = setting_of(clarity, threshold);
    let answer = whole::scale9x(w, h, setting, picture, output, middle, singles, bytes);
    number(&answer)
}
