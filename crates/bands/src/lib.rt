// A band, some rows that a tile has room for: its stale blocks drawn tile by tile, all of them or the first n in row order. The screen is
// known by its number; how its blocks are drawn is the tiles'.
#![tactic(auto)]

ghost use Rattle.std.specs.Prelude.{◌+◌, ◌*◌, ◌<◌, ◌≤◌, length};
ghost use Rattle.screens.specs.Frames.{Buffers};
ghost use Rattle.stale_runs.specs.Frames.{FirstOf};
ghost use Rattle.stale_runs.specs.Tiles.{rows_of};

use marks::{Area, count_stale, stale_end};
use part::draw_part;
use screens::frame::Frame;

mod part;

// The first n stale blocks of rows y to bottom - 1 drawn, and no longer stale. Answers how many were stale.
pub fn draw_band(
    frame: Frame,
    y: u32,
    bottom: u32,
    n: u32,
    output: &mut [u32],
    marks: &mut [u8],
) -> u32
    requires { ((y < bottom) × ((bottom ≤ frame.picture.h) × (bottom ≤ y + rows_of frame.scale)))
        × Buffers frame (length output.old) (length marks.old) }
    ensures { FirstOf frame.entry (y * frame.entry.picture.w) (bottom * frame.entry.picture.w) n
        output.old marks.old output.new marks.new result }
{
    let w = frame.picture.w;
    let width = w as usize;
    let lo = (y as usize) * width;
    let hi = (bottom as usize) * width;
    let stale = count_stale(marks, lo, hi);
    if stale <= n {
        let band = Area {
            x: 0,
            end: w,
            y,
            bottom,
        };
        draw_part(frame, band, output, marks);
        return stale;
    }
    // The n-th of them ends the slice: the rows above it are drawn whole, and its own row as far as that.
    let end = stale_end(marks, lo, hi, n);
    let row = (end / width) as u32;
    let above = Area {
        x: 0,
        end: w,
        y,
        bottom: row,
    };
    draw_part(frame, above, output, marks);
    let last = Area {
        x: 0,
        end: (end % width) as u32,
        y: row,
        bottom: row + 1,
    };
    draw_part(frame, last, output, marks);
    stale
}
