// The marks: a byte for each block, 0 for not stale and any other for stale. They are counted, searched for runs of stale blocks, set
// round a position and cleared. Nothing here knows how a block is drawn, nor how far a paint reaches.
#![tactic(auto)]

ghost use Rattle.std.specs.Prelude.{◌≡◌, ◌+◌, ◌*◌, ◌<◌, ◌≤◌, length, map};
ghost use Rattle.std.specs.List.{prefix_len};
ghost use Rattle.machine.specs.Lists.{count, stamp, set_all};
ghost use Rattle.machine.specs.Calls.{is_stale};
ghost use Rattle.marks.specs.Marks.{run, stale_in, blocks_from, boxed};

// Columns x to end - 1 and rows y to bottom - 1 of a picture.
#[derive(Clone, Copy)]
pub struct Area {
    pub x: u32,
    pub end: u32,
    pub y: u32,
    pub bottom: u32,
}

// How many marks are counted at a time: 7 times the 32 that the compiler takes together, as a byte counts no farther than 255.
const RUN: usize = 7 * 32;

// How many marks are stale, of at most RUN: a byte holds the count, so that the compiler takes 32 together.
pub fn count_run(marks: &[u8]) -> u8
    requires { length marks.now ≤ 7 * 32 }
    ensures { result ≡ count (map is_stale marks.now) }
{
    let mut c: u8 = 0;
    for mark in marks {
        c += u8::from(*mark != 0);
    }
    c
}

// How many of the marks lo to hi - 1 are stale: whole runs, whose length the compiler knows, and then the rest.
pub fn count_stale(marks: &[u8], lo: usize, hi: usize) -> u32
    requires { (lo ≤ hi) × ((hi ≤ 2048 * 2048) × (hi ≤ length marks.now)) }
    ensures { result ≡ count (stale_in lo hi marks.now) }
{
    let part = &marks[lo..hi];
    let (runs, rest) = part.as_chunks::<RUN>();
    let mut c: u32 = 0;
    for run in runs {
        c += count_run(run) as u32;
    }
    c + count_run(rest) as u32
}

// How many stale marks stand side by side at the front, itself one of them.
pub fn stale_run(marks: &[u8]) -> usize
    ensures { result ≡ prefix_len is_stale marks.now }
{
    marks.iter().take_while(|mark| **mark != 0).count()
}

// Where the marks lo to hi - 1 end once n of them are stale: after the n-th stale one, at lo if n is 0.
pub fn stale_end(marks: &[u8], lo: usize, hi: usize, n: u32) -> usize
    requires { (lo ≤ hi) × ((hi ≤ 2048 * 2048) × ((hi ≤ length marks.now) × (n ≤ count (stale_in lo hi marks.now)))) }
    ensures { (lo ≤ result) × ((result ≤ hi) × (count (stale_in lo result marks.now) ≡ n)) }
{
    let mut d: u32 = 0;
    let mut i = lo;
    // Not a `for` that returns at the n-th: it tests its end as well, and takes 42 microseconds where this takes 34 (65,536 marks).
    while d < n {
        d += u32::from(marks[i] != 0);
        i += 1;
    }
    i
}

// Marks lo to hi - 1 made stale.
pub fn mark_run(marks: &mut [u8], lo: usize, hi: usize)
    requires { (lo ≤ hi) × (hi ≤ length marks.old) }
    ensures { marks.new ≡ stamp (run lo hi) 1 marks.old }
{
    marks[lo..hi].fill(1);
}

// A pixel of a picture of w by h, at most 2,048 a side.
#[derive(Clone, Copy)]
pub struct Pixel {
    pub w: u32,
    pub h: u32,
    pub column: u32,
    pub row: u32,
    pub ghost small: { (w ≤ 2048) × (h ≤ 2048) },
    pub ghost inside: { (column < w) × (row < h) },
}

// How far from a pixel blocks depend on it: the columns to each side, and the rows above and below.
#[derive(Clone, Copy)]
pub struct Reach {
    pub side: u32,
    pub up: u32,
    pub down: u32,
}

// The blocks of the picture within reach of the pixel made stale, row by row.
pub fn mark_box(marks: &mut [u8], at: Pixel, reach: Reach)
    requires { (reach.side ≤ 2048) × ((reach.down ≤ 2048) × (at.w * at.h ≤ length marks.old)) }
    ensures { marks.new ≡ stamp (boxed at.w at.h at.column at.row reach.side reach.up reach.down) 1 marks.old }
{
    let width = at.w as usize;
    let x0 = at.column.saturating_sub(reach.side) as usize;
    let x1 = (at.column + reach.side + 1).min(at.w) as usize;
    let y1 = (at.row + reach.down + 1).min(at.h);
    for y in at.row.saturating_sub(reach.up)..y1 {
        let start = (y as usize) * width;
        mark_run(marks, start + x0, start + x1);
    }
}

// The k blocks from b on no longer stale.
pub fn clear_run(marks: &mut [u8], b: usize, k: u32)
    requires { b + k ≤ length marks.old }
    ensures { marks.new ≡ set_all (blocks_from b k) 0 marks.old }
{
    marks[b..b + k as usize].fill(0);
}
