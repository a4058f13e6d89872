// Blocks stored in an output whose rows have `ow` words: of a row of pixels, and of a rectangle of them. Whole pictures and runs of stale
// blocks are written here, each word where it belongs: a row's pixels are copied first, and then the word that a tag names is stored over
// its copy. The tags and the output begin with what is the first block's.
#![tactic(auto)]

ghost use Rattle.std.specs.Prelude.{◌≡◌, ◌+◌, length};
ghost use Rattle.picture.specs.Picture.{words};
ghost use Rattle.block.specs.Store.{put_row, put_rect, Copied};
ghost use Rattle.stored.specs.Room.{RowFits, RectFits, run_words, run_blocks, rect_blocks};

use copies::copy_rows;
use grid::{Grid, Record};
use picture::reader::Reader;
use picture::whole::Picture;
use tag::Tags;
use tag_words::{Pixel, put_block};

// The k pixels of a row of a picture from (x, y) on.
#[derive(Clone, Copy)]
struct Run<'a> {
    picture: Picture<'a>,
    x: u32,
    y: u32,
    k: u32,
}

// The blocks of a run by their tags, side by side, where nine copies of each pixel stand. A pixel's four bytes are tested as one number,
// which the compiler loads at once; where it is 0, the copies are the block.
fn put_tagged(run: Run, tags: &[u8], out: &mut [u32], ow: usize)
    requires { (RowFits run (length tags.now) ow (length out.old))
        × (Copied ow 0 run.k (λ i. run_words run (run.x + i) run.y) out.old) }
    ensures { out.new ≡ put_row ow 0 run.entry.k (run_blocks run.entry tags.now) out.old }
{
    let of = run.picture;
    let picture = Reader::over(of.words, of.w, of.h);
    for i in 0..run.k {
        let at = i as usize;
        let t = Tags::load(tags, 4 * at);
        let all = u32::from_le_bytes([t.t0, t.t1, t.t2, t.t3]);
        if all != 0 {
            let x = run.x + i;
            let pixel = Pixel {
                picture,
                x,
                y: run.y,
            };
            put_block(pixel, t, out, ow, 3 * at);
        }
    }
}

// The blocks of a run by their tags, side by side.
fn put_row(run: Run, tags: &[u8], out: &mut [u32], ow: usize)
    requires { RowFits run (length tags.now) ow (length out.old) }
    ensures { out.new ≡ put_row ow 0 run.entry.k (run_blocks run.entry tags.now) out.old }
{
    let i = (run.y as usize) * (run.picture.w as usize) + (run.x as usize);
    copy_rows(&run.picture.words[i..i + run.k as usize], out, ow);
    put_tagged(run, tags, out, ow);
}

// The blocks of a rectangle of a picture by their tags, row after row. The tags of a row start `stride` bytes after those of the row above
// it.
pub fn put_rect(picture: Picture, g: Grid, tags: &[u8], stride: usize, out: &mut [u32], ow: usize)
    requires { RectFits picture.w picture.h g stride (length tags.now) ow (length out.old) }
    ensures { out.new ≡ put_rect ow 0 g.cols g.rows (rect_blocks picture.entry.w picture.entry.h
        (words picture.entry.w picture.entry.words.now) g tags.now stride) out.old }
{
    for j in 0..g.rows {
        let run = Run {
            picture,
            x: g.x0,
            y: g.y0 + j,
            k: g.cols,
        };
        let row = j as usize;
        put_row(run, &tags[row * stride..], &mut out[row * (3 * ow)..], ow);
    }
}
