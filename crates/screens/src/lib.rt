// Both screens by a number that is handed in, the scale: 9 for the nine-times screen, any other for the three-times one. What a call asks
// of its screen is answered here: the limit of a side, a block's words and where they lie, and the marks that a changing paint makes.
#![tactic(auto)]

ghost use Rattle.std.specs.Prelude.{◌≡◌, ◌*◌, ◌<◌, ◌≤◌, length};
ghost use Rattle.machine.specs.Lists.{stamp};
ghost use Rattle.machine.specs.Screen.{block_words, place};
ghost use Rattle.machine.specs.Machine.{names, block_at};
ghost use Rattle.screens.specs.Screens.{screen_of};

use marks::Pixel;

pub mod frame;

// The number of the nine-times screen.
pub const NINE: u32 = 9;

// The number of the three-times screen.
pub const THREE: u32 = 3;

// The limit of w and of h, of the nine-times screen and of the three-times one.
pub const SIDE_NINE: u32 = 682;

pub const SIDE_THREE: u32 = 2048;

// How many words a block has, likewise.
const WORDS_NINE: usize = 81;

const WORDS_THREE: usize = 9;

// The numbers of a screen.
#[derive(Clone, Copy)]
struct Numbers {
    // The limit of w and of h.
    side: u32,
    // How many words a block's row has, and how many rows it has.
    across: u32,
    // How many words a block has.
    words: usize,
}

const NINE_TIMES: Numbers = Numbers {
    side: SIDE_NINE,
    across: NINE,
    words: WORDS_NINE,
};

const THREE_TIMES: Numbers = Numbers {
    side: SIDE_THREE,
    across: THREE,
    words: WORDS_THREE,
};

// Those of the screen that a number has. The screen stays a number, of a C caller's or a header's, and every number has a screen:
// `screen_of` says so, and the edit nine_for_no_screen.
fn numbers_of(scale: u32) -> Numbers
    ensures { (result.side ≡ (screen_of scale).side)
        × ((result.across ≡ (screen_of scale).scale) × (result.words ≡ block_words (screen_of scale))) }
{
    if scale == NINE {
        NINE_TIMES
    } else {
        THREE_TIMES
    }
}

// The limit of w and of h.
pub fn side(scale: u32) -> u32
    ensures { result ≡ (screen_of scale).side }
{
    numbers_of(scale).side
}

// How many words a block has.
pub fn words(scale: u32) -> usize
    ensures { result ≡ block_words (screen_of scale) }
{
    numbers_of(scale).words
}

// How many words a block's row has, and how many rows it has.
pub fn across(scale: u32) -> u32
    ensures { result ≡ (screen_of scale).scale }
{
    numbers_of(scale).across
}

// The blocks that a changing paint at (column, row) names made stale. Each
// screen has its own function: a table of the two would be no shorter.
pub fn mark_paint(scale: u32, marks: &mut [u8], w: u32, h: u32, column: u32, row: u32)
    requires { (w ≤ 2048) × ((h ≤ 2048) × ((column < w) × ((row < h) × (w * h ≤ length marks.old)))) }
    ensures { marks.new ≡ stamp (names (screen_of scale) w h column row) 1 marks.old }
{
    let at = Pixel { w, h, column, row };
    if scale == NINE {
        nine::mark_paint(marks, at);
    } else {
        three::mark_paint(marks, at);
    }
}

// Where the first word of block (bx, by) lies.
pub fn corner(scale: u32, w: u32, bx: u32, by: u32) -> usize
    requires { (w ≤ 2048) × ((bx < w) × (by < 2048)) }
    ensures { result ≡ place (screen_of scale) w bx by 0 }
{
    let s = across(scale) as usize;
    s * (by as usize) * (s * (w as usize)) + s * (bx as usize)
}

// The words of block (bx, by), row by row. No `for`: the edit show_without_end says that a loop which takes no step never ends.
pub fn read_block(scale: u32, output: &[u32], w: u32, h: u32, bx: u32, by: u32, words: &mut [u32])
    requires { (bx < w) × ((by < h) × ((w ≤ 2048) × ((h ≤ 2048)
        × ((block_words (screen_of scale) * (w * h) ≤ length output.now) × (length words.old ≡ block_words (screen_of scale)))))) }
    ensures { words.new ≡ block_at (screen_of scale) w h bx by output.now }
{
    let s = across(scale) as usize;
    let row = s * (w as usize);
    let top = s * (by as usize);
    let left = s * (bx as usize);
    let mut k: usize = 0;
    while k < words.len() {
        words[k] = output[(top + k / s) * row + (left + k % s)];
        k += 1;
    }
}
