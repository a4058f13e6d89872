// The passes on rectangles each of which holds what the next one reads, and the tags of a tile of pixels from the picture alone.
#![tactic(auto)]

ghost use Rattle.std.specs.Prelude.{◌≡◌, ◌≤◌, length};
ghost use Rattle.picture.specs.Picture.{words};
ghost use Rattle.block.specs.Ring.{ring_of};
ghost use Rattle.passes.specs.Window.{Tile, Rooms, Passed, TileTagged, tile_bytes};

use clarity::Clarity;
use field::{metrics_rect, weights_rect};
use grid::{Grid, Records};
use junction_field::junctions_rect;
use picture::whole::Picture;
use tagged::tags_rect;

// The most columns and rows of a tile.
pub const COLUMNS: u32 = 16;

pub const ROWS: u32 = 12;

// Where a tile's weights start among its singles: the metrics of the pixels within 5 of it, 26 by 22 at most, stand before them.
const CUT: usize = 26 * 22 * 4;

// A tile's singles: those metrics, and the weights of the pixels within 4 of it, 24 by 20 at most.
const SINGLES: usize = CUT + 24 * 20 * 4;

// Where a tile's tags start among its bytes: the junctions of the pixels within 3 of it, 22 by 18 at most, stand before them.
pub const TAGS: usize = 22 * 18 * 4;

// A tile's bytes: those junctions, and the tags of its own pixels, 16 by 12 at most.
pub const BYTES: usize = TAGS + 16 * 12 * 4;

// The rectangle that reaches a pixels round the tile t, as far as the picture goes.
pub fn ring(w: u32, h: u32, t: Grid, a: u32) -> Grid
    requires { (Tile w h t.x0 t.y0 t.cols t.rows) × (a ≤ 5) }
    ensures { result ≡ ring_of w h t.x0 t.y0 t.cols t.rows a }
{
    let x0 = t.x0.saturating_sub(a);
    let y0 = t.y0.saturating_sub(a);
    Grid {
        x0,
        y0,
        cols: (t.x0 + t.cols + a).min(w) - x0,
        rows: (t.y0 + t.rows + a).min(h) - y0,
    }
}

// The rectangles of a run of the passes: of each kind of records, the pixels whose records are kept.
#[derive(Clone, Copy)]
pub struct Windows {
    pub metrics: Grid,
    pub weights: Grid,
    pub junctions: Grid,
    pub tags: Grid,
}

// The metrics at the front of the singles, the weights from `cut` on, the junctions at the front of the bytes, and the tags from `from`
// on: each holds what the next one reads, so all of them are the picture's own at that clarity.
pub fn passes(
    picture: Picture,
    clarity: Clarity,
    r: Windows,
    singles: &mut [f32],
    cut: usize,
    bytes: &mut [u8],
    from: usize,
)
    requires { Rooms picture.w picture.h r.metrics r.weights r.junctions r.tags cut from
        (length picture.words.now) (length singles.old) (length bytes.old) }
    ensures { Passed clarity picture.entry.w picture.entry.h (words picture.entry.w picture.entry.words.now)
        r.metrics r.weights r.junctions r.tags cut from singles.old singles.new bytes.old bytes.new }
{
    let w = picture.w;
    let h = picture.h;
    let (m, s) = singles.split_at_mut(cut);
    let (j, t) = bytes.split_at_mut(from);
    metrics_rect(picture, r.metrics, m);
    let metrics = Records {
        elements: m,
        of: r.metrics,
    };
    weights_rect(clarity, metrics, w, h, r.weights, s);
    let weights = Records {
        elements: s,
        of: r.weights,
    };
    junctions_rect(metrics, weights, w, h, r.junctions, j);
    let junctions = Records {
        elements: j,
        of: r.junctions,
    };
    tags_rect(junctions, w, h, r.tags, t);
}

// The tags of the tile t, from the picture alone, from the byte TAGS on. Before them stand the junctions round it.
pub fn tags_tile(picture: Picture, clarity: Clarity, t: Grid, bytes: &mut [u8])
    requires { (Tile picture.w picture.h t.x0 t.y0 t.cols t.rows) × (tile_bytes ≤ length bytes.old) }
    ensures { TileTagged clarity picture.entry.w picture.entry.h (words picture.entry.w picture.entry.words.now)
        t.x0 t.y0 t.cols t.rows bytes.old bytes.new }
{
    let w = picture.w;
    let h = picture.h;
    let windows = Windows {
        metrics: ring(w, h, t, 5),
        weights: ring(w, h, t, 4),
        junctions: ring(w, h, t, 3),
        tags: t,
    };
    let mut singles = [0.0f32; SINGLES];
    passes(picture, clarity, windows, &mut singles, CUT, bytes, TAGS);
}
