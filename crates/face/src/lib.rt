// What the C face does for a session, once for both screens: the header and the items of a list come as the arrays of numbers that `arrays`
// reads and writes, and each call answers the number of its refusal and, through what it is lent, the values of its answer: 0s beside a
// refusal. The screen's number is handed in; the C calls themselves are those of `panel`, whose signatures these are: so they have many
// parameters, and no `Result`.
#![tactic(auto)]

ghost use Rattle.std.specs.Prelude.{◌≡◌, map, ◌≤◌, T, length, replicate};
ghost use Rattle.clarity.specs.Clarity.{lawful_of, setting_of};
ghost use Rattle.paints.specs.Paints.{gathered};
ghost use Rattle.machine.specs.Screen.{block_words};
ghost use Rattle.machine.specs.Calls.{Opens, Paints, PaintLists, Refreshes, Shows, Locks};
ghost use Rattle.screens.specs.Screens.{screen_of};
ghost use Rattle.arrays.specs.Header.{header_of, numbers_of};
ghost use Rattle.arrays.specs.Item.{paint_of};

use arrays::{header_of, numbers_of, paints_of};
use clarity::setting_of;
use header::Rectangle;
use paints::{Paint, few};
use picture::refusal::number;

// A session opened on a picture, at the setting that a kind and a single stand for; its header and its stale count.
pub fn open(
    scale: u32,
    w: u32,
    h: u32,
    clarity: u32,
    threshold: f32,
    picture: &[u32],
    output: &mut [u32],
    marks: &mut [u8],
    header: &mut [u32; 8],
    stale: &mut u32,
) -> u32
    ensures { Opens (screen_of scale) w h (setting_of clarity threshold)
        picture.now output.old marks.old
        (record {
          output = output.new;
          marks = marks.new;
          refusal = result;
          header = header_of header.new;
          stale = stale.new;
        }) × (header.new ≡ numbers_of (header_of header.new)) }
{
    let setting = setting_of(clarity, threshold);
    let answer = calls::open(scale, w, h, setting, picture, output, marks);
    let opened = answer.unwrap_or_default();
    *header = numbers_of(opened.header);
    *stale = opened.stale;
    number(&answer)
}

// One word of the picture painted.
pub fn paint(
    scale: u32,
    header: &[u32; 8],
    picture: &mut [u32],
    marks: &mut [u8],
    column: u32,
    row: u32,
    word: u32,
    changed: &mut u32,
    stale: &mut u32,
) -> u32
    ensures { Paints (screen_of scale) (header_of header.now)
        picture.old marks.old column row word
        (record {
          picture = picture.new;
          marks = marks.new;
          refusal = result;
          changed = changed.new;
          stale = stale.new;
        }) }
{
    let lent = header_of(header);
    let answer = painted::paint(scale, lent, picture, marks, Paint { column, row, word });
    let painted = answer.unwrap_or_default();
    *changed = u32::from(painted.changed);
    *stale = painted.stale;
    number(&answer)
}

// The paints of a list, all or none.
pub fn paint_list(
    scale: u32,
    header: &[u32; 8],
    picture: &mut [u32],
    marks: &mut [u8],
    items: &[[u32; 3]],
    stale: &mut u32,
) -> u32
    ensures { PaintLists (screen_of scale) (header_of header.now)
        picture.old marks.old (map paint_of items.now)
        (record {
          picture = picture.new;
          marks = marks.new;
          refusal = result;
          stale = stale.new;
        }) }
{
    let lent = header_of(header);
    let n = items.len();
    let a = paints_of(items, few(n));
    let answer = painted::paint_gathered(scale, lent, picture, marks, a, n);
    *stale = answer.unwrap_or_default();
    number(&answer)
}

// The first n stale blocks drawn.
pub fn refresh(
    scale: u32,
    header: &[u32; 8],
    picture: &[u32],
    output: &mut [u32],
    marks: &mut [u8],
    n: u32,
    drawn: &mut u32,
    left: &mut u32,
) -> u32
    ensures { Refreshes (screen_of scale) (header_of header.now)
        picture.now output.old marks.old n
        (record {
          output = output.new;
          marks = marks.new;
          refusal = result;
          drawn = drawn.new;
          left = left.new;
        }) }
{
    let lent = header_of(header);
    let answer = refreshed::refresh(scale, lent, picture, output, marks, n);
    let refreshed = answer.unwrap_or_default();
    *drawn = refreshed.drawn;
    *left = refreshed.left;
    number(&answer)
}

// The words of a block, into as many zeros.
pub fn show(
    scale: u32,
    header: &[u32; 8],
    output: &[u32],
    marks: &[u8],
    bx: u32,
    by: u32,
    block: &mut [u32],
) -> u32
    requires { block.old ≡ replicate (block_words (screen_of scale)) 0 }
    ensures { Shows (screen_of scale) (header_of header.now) output.now marks.now bx by
        (record { refusal = result; words = block.new }) }
{
    let lent = header_of(header);
    number(&calls::show(scale, lent, output, marks, bx, by, block))
}

// The header with another rectangle locked.
pub fn lock(
    scale: u32,
    header: &[u32; 8],
    left: u32,
    top: u32,
    width: u32,
    height: u32,
    locked: &mut [u32; 8],
) -> u32
    ensures { Locks (screen_of scale) (header_of header.now)
        (record { left = left; top = top; width = width; height = height })
        (record { refusal = result; header = header_of locked.new })
        × (locked.new ≡ numbers_of (header_of locked.new)) }
{
    let lent = header_of(header);
    let lock = Rectangle {
        left,
        top,
        width,
        height,
    };
    let relocked = calls::lock(scale, lent, lock);
    *locked = numbers_of(relocked.unwrap_or_default());
    number(&relocked)
}
