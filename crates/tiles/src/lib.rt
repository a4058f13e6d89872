// A tile, a rectangle of blocks that share their passes' work: the passes run for it, and its stale blocks are stored by `stale_runs`,
// while the others keep their words. Both screens store blocks of nine words, those of the last pass: the three-times screen one for each
// of its own blocks, from the picture, and the nine-times screen three by three, from a window of the first result that the first pass
// leaves on the stack.
#![tactic(auto)]

ghost use Rattle.std.specs.Prelude.{◌≡◌, ◌+◌, ◌*◌, ◌≤◌, length};
ghost use Rattle.picture.specs.Picture.{words};
ghost use Rattle.block.specs.Block.{block_of};
ghost use Rattle.passes.specs.Window.{Tile};
ghost use Rattle.block.specs.Store.{put_rect};
ghost use Rattle.marks.specs.Marks.{Inside};
ghost use Rattle.screens.specs.Frames.{Buffers};
ghost use Rattle.stale_runs.specs.Frames.{SweptOf};
ghost use Rattle.stale_runs.specs.Tiles.{columns_of, rows_of, TileOn};
ghost use Rattle.tiles.specs.Shows.{ShowsTile};

use clarity::Clarity;
use grid::Grid;
use passes::{BYTES, COLUMNS, ROWS, TAGS, ring, tags_tile};
use picture::whole::Picture;
use screens::NINE;
use screens::frame::Frame;
use stale_runs::{Source, TaggedTile, cells, draw_rows};
use stored::put_rect;

// How large a tile may be.
#[derive(Clone, Copy)]
pub struct Limits {
    pub columns: u32,
    pub rows: u32,
}

// The most columns and rows of a tile: of the source 15 or 16 pixels by 12, of which COLUMNS by ROWS have their tags at once. By
// the screen's number: what a tile is, is known here alone.
pub fn most(scale: u32) -> Limits
    ensures { (result.columns ≡ columns_of scale) × (result.rows ≡ rows_of scale) }
{
    if scale == NINE {
        Limits {
            columns: 5,
            rows: 4,
        }
    } else {
        Limits {
            columns: COLUMNS,
            rows: ROWS,
        }
    }
}

// The stale ones of the tile t drawn from the source that shows it, and no longer stale: the last pass runs over the tile's pixels there.
// It is no part of its caller, nor is `enlarge`: so the singles and bytes of two passes never stand on the stack together.
#[inline(never)]
fn draw_from(frame: Frame, t: Grid, source: Source, output: &mut [u32], marks: &mut [u8])
    requires { (TileOn frame.scale frame.picture.w frame.picture.h t)
        × (ShowsTile frame t source × Buffers frame (length output.old) (length marks.old)) }
    ensures { SweptOf frame.entry (Inside frame.entry.picture.w t.x0 (t.x0 + t.cols) t.y0 (t.y0 + t.rows))
        output.old marks.old output.new marks.new }
{
    let m = cells(frame.scale);
    let clarity = frame.clarity;
    let pixels = Grid {
        x0: source.x,
        y0: source.y,
        cols: m * t.cols,
        rows: m * t.rows,
    };
    let mut bytes = [0u8; BYTES];
    tags_tile(source.picture, clarity, pixels, &mut bytes);
    let tile = TaggedTile {
        grid: t,
        source,
        tags: &bytes[TAGS..],
    };
    draw_rows(frame, tile, output, marks);
}

// How many words the window has: three by three for each of at most 9 by 8 pixels, those within two of a tile of 5 by 4.
const WINDOW: usize = 27 * 24;

// The pixels of g enlarged, side by side from the window's first word on.
#[inline(never)]
fn enlarge(p: Picture, clarity: Clarity, g: Grid, window: &mut [u32])
    requires { (Tile p.w p.h g.x0 g.y0 g.cols g.rows) × (g.rows * (3 * (3 * g.cols)) ≤ length window.old) }
    ensures { window.new ≡ put_rect (3 * g.cols) 0 g.cols g.rows
        (λ i j. block_of clarity p.entry.w p.entry.h (words p.entry.w p.entry.words.now) (g.x0 + i) (g.y0 + j)) window.old }
{
    let mut bytes = [0u8; BYTES];
    tags_tile(p, clarity, g, &mut bytes);
    let k = g.cols as usize;
    put_rect(p, g, &bytes[TAGS..], k * 4, window, 3 * k);
}

// The stale ones of the tile t of the nine-times screen drawn, and no longer stale: the first pass runs over the pixels within two of it,
// and the second over what the first one leaves, which reaches six pixels round the tile or ends where the first result does.
fn draw_nine(frame: Frame, t: Grid, output: &mut [u32], marks: &mut [u8])
    requires { (frame.scale ≡ 9) × ((TileOn frame.scale frame.picture.w frame.picture.h t)
        × Buffers frame (length output.old) (length marks.old)) }
    ensures { SweptOf frame.entry (Inside frame.entry.picture.w t.x0 (t.x0 + t.cols) t.y0 (t.y0 + t.rows))
        output.old marks.old output.new marks.new }
{
    let p = frame.picture;
    let g = ring(p.w, p.h, t, 2);
    let mut window = [0u32; WINDOW];
    enlarge(p, frame.clarity, g, &mut window);
    let picture = Picture {
        words: &window,
        w: 3 * g.cols,
        h: 3 * g.rows,
    };
    let source = Source {
        picture,
        x: 3 * (t.x0 - g.x0),
        y: 3 * (t.y0 - g.y0),
    };
    draw_from(frame, t, source, output, marks);
}

// The stale ones of the tile t drawn, and no longer stale. The nine-times screen runs a pass before: that is all that differs.
pub fn draw_tile(frame: Frame, t: Grid, output: &mut [u32], marks: &mut [u8])
    requires { (TileOn frame.scale frame.picture.w frame.picture.h t) × Buffers frame (length output.old) (length marks.old) }
    ensures { SweptOf frame.entry (Inside frame.entry.picture.w t.x0 (t.x0 + t.cols) t.y0 (t.y0 + t.rows))
        output.old marks.old output.new marks.new }
{
    if frame.scale == NINE {
        draw_nine(frame, t, output, marks);
    } else {
        let source = Source {
            picture: frame.picture,
            x: t.x0,
            y: t.y0,
        };
        draw_from(frame, t, source, output, marks);
    }
}
