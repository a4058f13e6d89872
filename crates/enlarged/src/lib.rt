// A whole picture enlarged three times at a setting: the passes over all of it, and its blocks stored side by side. Its caller has shown
// that the buffers are long enough.
#![tactic(auto)]

ghost use Rattle.std.specs.Prelude.{◌*◌, length};
ghost use Rattle.enlarged.specs.Passes.{Fits, Enlarged};

use clarity::Clarity;
use grid::Grid;
use passes::{Windows, passes};
use picture::whole::Picture;
use stored::put_rect;

// The passes over a whole picture whose buffers are long enough, and its blocks stored.
pub fn enlarge(
    picture: Picture,
    clarity: Clarity,
    output: &mut [u32],
    singles: &mut [f32],
    bytes: &mut [u8],
)
    requires { Fits picture.w picture.h (picture.w * picture.h) (length output.old) (length singles.old) (length bytes.old) }
    ensures { Enlarged clarity picture.entry.w picture.entry.h picture.entry.words.now output.old singles.old bytes.old
        output.new singles.new bytes.new }
{
    let all = Grid {
        x0: 0,
        y0: 0,
        cols: picture.w,
        rows: picture.h,
    };
    let windows = Windows {
        metrics: all,
        weights: all,
        junctions: all,
        tags: all,
    };
    let w = picture.w as usize;
    let row = w * 4;
    let cut = (picture.h as usize) * row;
    passes(picture, clarity, windows, singles, cut, bytes, cut);
    put_rect(picture, all, &bytes[cut..], row, output, 3 * w);
}
