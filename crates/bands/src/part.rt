// The stale blocks of some rows drawn tile by tile: a tile is the rectangle round the stale blocks of the next columns, as many as a tile
// has.
ghost use Rattle.std.specs.Prelude.{◌+◌, ◌<◌, ◌≤◌, length};
ghost use Rattle.marks.specs.Marks.{Inside};
ghost use Rattle.screens.specs.Frames.{Buffers};
ghost use Rattle.stale_runs.specs.Frames.{SweptOf};
ghost use Rattle.stale_runs.specs.Tiles.{rows_of};
ghost use Rattle.bands.specs.Window.{Window};

use grid::Grid;
use marks::Area;
use screens::frame::Frame;
use stale_search::{column_end, first_column, first_row, row_end};
use tiles::{draw_tile, most};

// The stale blocks of the area drawn, and no longer stale. Rows at the top and at the bottom and columns at the right in which none is
// stale are left out of the tile.
fn draw_window(frame: Frame, a: Area, output: &mut [u32], marks: &mut [u8])
    requires { (Window frame.scale frame.picture.w frame.picture.h a.x a.end a.y a.bottom)
        × Buffers frame (length output.old) (length marks.old) }
    ensures { SweptOf frame.entry (Inside frame.entry.picture.w a.x a.end a.y a.bottom) output.old marks.old output.new marks.new }
{
    let w = frame.picture.w;
    let top = first_row(marks, w, a);
    let low = row_end(marks, w, Area { y: top, ..a });
    let right = column_end(
        marks,
        w,
        Area {
            y: top,
            bottom: low,
            ..a
        },
    );
    let tile = Grid {
        x0: a.x,
        y0: top,
        cols: right - a.x,
        rows: low - top,
    };
    draw_tile(frame, tile, output, marks);
}

// The stale blocks of the area drawn, and no longer stale. The column goes on by a tile and by those without a stale block.
pub fn draw_part(frame: Frame, a: Area, output: &mut [u32], marks: &mut [u8])
    requires { ((a.x ≤ a.end) × ((a.end ≤ frame.picture.w) × ((a.y ≤ a.bottom) × ((a.bottom ≤ frame.picture.h)
        × (a.bottom ≤ a.y + rows_of frame.scale))))) × Buffers frame (length output.old) (length marks.old) }
    ensures { SweptOf frame.entry (Inside frame.entry.picture.w a.x a.end a.y a.bottom) output.old marks.old output.new marks.new }
{
    if a.y == a.bottom {
        return;
    }
    let w = frame.picture.w;
    let columns = most(frame.scale).columns;
    let mut x = first_column(marks, w, a);
    while x < a.end {
        let end = (x + columns).min(a.end);
        draw_window(frame, Area { x, end, ..a }, output, marks);
        x = first_column(marks, w, Area { x: end, ..a });
    }
}
