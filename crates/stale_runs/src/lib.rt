// Runs of a tile's stale blocks, stored by their tags: row by row of the tile, each run of stale blocks in one go, and the others keep
// their words. It rests on that the source and the tags stand ready: they give the blocks of nine words of the screen's last pass.
#![tactic(auto)]

ghost use Rattle.std.specs.Prelude.{◌≡◌, ◌+◌, ◌*◌, ◌<◌, ◌≤◌, length};
ghost use Rattle.marks.specs.Marks.{blocks_from, Inside};
ghost use Rattle.screens.specs.Frames.{Buffers};
ghost use Rattle.stale_runs.specs.Frames.{DrawsOf, SweptOf, TileReady};
ghost use Rattle.stale_runs.specs.Tiles.{cells_of};

use grid::Grid;
use marks::{clear_run, stale_run};
use picture::whole::Picture;
use screens::frame::Frame;
use screens::{NINE, corner};
use stored::put_rect;

// Where a tile's blocks are drawn from: the last pass runs over this picture, in which the tile begins at (x, y).
#[derive(Clone, Copy)]
pub struct Source<'a> {
    pub picture: Picture<'a>,
    pub x: u32,
    pub y: u32,
}

// A tile of the frame's blocks, with its source and its pixels' tags. The tags are those of the frame's picture at the setting.
#[derive(Clone, Copy)]
pub struct TaggedTile<'a> {
    pub grid: Grid,
    pub source: Source<'a>,
    pub tags: &'a [u8],
}

// How many pixels of the source are a block's width, and as many its height.
pub fn cells(scale: u32) -> u32
    ensures { result ≡ cells_of scale }
{
    if scale == NINE { 3 } else { 1 }
}

// Of the tile, the n blocks from column i of row j on drawn by their tags, and no longer stale.
fn draw_run(
    frame: Frame,
    tile: TaggedTile,
    output: &mut [u32],
    marks: &mut [u8],
    i: u32,
    j: u32,
    n: u32,
)
    requires { ((0 < n) × ((i + n ≤ tile.grid.cols) × (j < tile.grid.rows)))
        × (TileReady frame tile × Buffers frame (length output.old) (length marks.old)) }
    ensures { DrawsOf frame.entry (blocks_from ((tile.entry.grid.y0 + j) * frame.entry.picture.w + (tile.entry.grid.x0 + i)) n)
        output.old marks.old output.new marks.new }
{
    let t = tile.grid;
    let s = tile.source;
    let w = frame.picture.w;
    let m = cells(frame.scale);
    let g = Grid {
        x0: s.x + m * i,
        y0: s.y + m * j,
        cols: m * n,
        rows: m,
    };
    let row = 4 * ((m * t.cols) as usize);
    let from = ((m * j) as usize) * row + 4 * ((m * i) as usize);
    let at = corner(frame.scale, w, t.x0 + i, t.y0 + j);
    put_rect(
        s.picture,
        g,
        &tile.tags[from..],
        row,
        &mut output[at..],
        3 * ((m * w) as usize),
    );
    let b = ((t.y0 + j) as usize) * (w as usize) + ((t.x0 + i) as usize);
    clear_run(marks, b, n);
}

// The stale ones of row j of the tile drawn, and no longer stale. The column goes on by one block or by a run of stale ones.
fn draw_stale(frame: Frame, tile: TaggedTile, output: &mut [u32], marks: &mut [u8], j: u32)
    requires { (j < tile.grid.rows) × (TileReady frame tile × Buffers frame (length output.old) (length marks.old)) }
    ensures { SweptOf frame.entry (Inside frame.entry.picture.w tile.entry.grid.x0 (tile.entry.grid.x0 + tile.entry.grid.cols)
        (tile.entry.grid.y0 + j) (tile.entry.grid.y0 + j + 1)) output.old marks.old output.new marks.new }
{
    let t = tile.grid;
    let start = ((t.y0 + j) as usize) * (frame.picture.w as usize) + (t.x0 as usize);
    let end = start + t.cols as usize;
    let mut i: u32 = 0;
    while i < t.cols {
        let b = start + (i as usize);
        if marks[b] == 0 {
            i += 1;
        } else {
            let n = stale_run(&marks[b..end]) as u32;
            draw_run(frame, tile, output, marks, i, j, n);
            i += n;
        }
    }
}

// The stale ones of the tile drawn, and no longer stale.
pub fn draw_rows(frame: Frame, tile: TaggedTile, output: &mut [u32], marks: &mut [u8])
    requires { TileReady frame tile × Buffers frame (length output.old) (length marks.old) }
    ensures { SweptOf frame.entry (Inside frame.entry.picture.w tile.entry.grid.x0 (tile.entry.grid.x0 + tile.entry.grid.cols)
        tile.entry.grid.y0 (tile.entry.grid.y0 + tile.entry.grid.rows)) output.old marks.old output.new marks.new }
{
    for j in 0..tile.grid.rows {
        draw_stale(frame, tile, output, marks, j);
    }
}
