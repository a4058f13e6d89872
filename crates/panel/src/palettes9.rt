// Whole pictures nine times as large on panels with a palette, at the setting that a kind and a single stand for.
ghost use Rattle.clarity.specs.Clarity.{setting_of};
ghost use Rattle.whole_palette.specs.Calls.{ScalesBy9};

use clarity::setting_of;
use picture::refusal::number;

// A whole picture nine times as large, its words replaced by the nearest entries.
#[unsafe(no_mangle)]
pub extern "C" fn panel_scale9x_palette(
    w: u32,
    h: u32,
    clarity: u32,
    threshold: f32,
    picture: &[u32],
    palette: &[u32],
    replaced: &mut [u32],
    output: &mut [u32],
    middle: &mut [u32],
    singles: &mut [f32],
    bytes: &mut [u8],
) -> u32
    ensures { ScalesBy9 (setting_of clarity threshold) w h
        picture.now palette.now replaced.old output.old middle.old singles.old
        bytes.old
        replaced.new output.new middle.new singles.new bytes.new result }
{
    let setting = setting_of(clarity, threshold);
    let answer = whole_palette::scale9x_palette(
        w, h, setting, picture, palette, replaced, output, middle, singles, bytes,
    );
    number(&answer)
}
