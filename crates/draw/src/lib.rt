// The first n stale blocks drawn, in row order. Rows with nothing stale are passed over; from a row with a stale block on, as many rows as
// a tile has are drawn as a band. The screen is known by its number; how a band is drawn is that of `bands`.
#![tactic(auto)]

ghost use Rattle.std.specs.Prelude.{◌*◌, length};
ghost use Rattle.screens.specs.Frames.{Buffers};
ghost use Rattle.stale_runs.specs.Frames.{FirstOf};

use bands::draw_band;
use marks::count_stale;
use screens::frame::Frame;
use tiles::most;

// The first n stale blocks drawn, and no longer stale. Answers how many were stale: the rows are counted on the way down, and what is
// below the last band drawn in one go. The row goes on by one without a stale block or by a band.
pub fn draw_first(frame: Frame, output: &mut [u32], marks: &mut [u8], n: u32) -> u32
    requires { Buffers frame (length output.old) (length marks.old) }
    ensures { FirstOf frame.entry 0 (frame.entry.picture.w * frame.entry.picture.h) n output.old marks.old output.new marks.new result }
{
    let h = frame.picture.h;
    let width = frame.picture.w as usize;
    let rows = most(frame.scale).rows;
    let mut stale: u32 = 0;
    let mut y: u32 = 0;
    while y < h && stale < n {
        let start = (y as usize) * width;
        if count_stale(marks, start, start + width) == 0 {
            y += 1;
        } else {
            let bottom = (y + rows).min(h);
            stale += draw_band(frame, y, bottom, n - stale, output, marks);
            y = bottom;
        }
    }
    stale + count_stale(marks, (y as usize) * width, (h as usize) * width)
}
