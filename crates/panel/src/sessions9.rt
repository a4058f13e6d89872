// The calls of the nine-times session, each as the three-times one of its name.
ghost use Rattle.std.specs.Prelude.{◌≡◌, map};
ghost use Rattle.clarity.specs.Clarity.{setting_of};
ghost use Rattle.machine.specs.Calls.{Opens, Paints, PaintLists, Refreshes, Shows, Locks};
ghost use Rattle.nine.specs.Nine.{screen9};
ghost use Rattle.arrays.specs.Header.{header_of, numbers_of};
ghost use Rattle.arrays.specs.Item.{paint_of};

use screens::NINE;

// A session opened on a picture, at the setting that a kind and a single stand for; its header and its stale count.
#[unsafe(no_mangle)]
pub extern "C" fn panel9_open(
    w: u32,
    h: u32,
    clarity: u32,
    threshold: f32,
    picture: &[u32],
    output: &mut [u32],
    marks: &mut [u8],
    header: &mut [u32; 8],
    stale: &mut u32,
) -> u32
    ensures { Opens screen9 w h (setting_of clarity threshold) picture.now output.old marks.old
        (record {
          output = output.new;
          marks = marks.new;
          refusal = result;
          header = header_of header.new;
          stale = stale.new;
        }) × (header.new ≡ numbers_of (header_of header.new)) }
{
    face::open(
        NINE, w, h, clarity, threshold, picture, output, marks, header, stale,
    )
}

// One word of the picture painted.
#[unsafe(no_mangle)]
pub extern "C" fn panel9_paint(
    header: &[u32; 8],
    picture: &mut [u32],
    marks: &mut [u8],
    column: u32,
    row: u32,
    word: u32,
    changed: &mut u32,
    stale: &mut u32,
) -> u32
    ensures { Paints screen9 (header_of header.now)
        picture.old marks.old column row word
        (record {
          picture = picture.new;
          marks = marks.new;
          refusal = result;
          changed = changed.new;
          stale = stale.new;
        }) }
{
    face::paint(
        NINE, header, picture, marks, column, row, word, changed, stale,
    )
}

// The paints of a list, all or none.
#[unsafe(no_mangle)]
pub extern "C" fn panel9_paint_list(
    header: &[u32; 8],
    picture: &mut [u32],
    marks: &mut [u8],
    items: &[[u32; 3]],
    stale: &mut u32,
) -> u32
    ensures { PaintLists screen9 (header_of header.now)
        picture.old marks.old (map paint_of items.now)
        (record {
          picture = picture.new;
          marks = marks.new;
          refusal = result;
          stale = stale.new;
        }) }
{
    face::paint_list(NINE, header, picture, marks, items, stale)
}

// The first n stale blocks drawn.
#[unsafe(no_mangle)]
pub extern "C" fn panel9_refresh(
    header: &[u32; 8],
    picture: &[u32],
    output: &mut [u32],
    marks: &mut [u8],
    n: u32,
    drawn: &mut u32,
    left: &mut u32,
) -> u32
    ensures { Refreshes screen9 (header_of header.now)
        picture.now output.old marks.old n
        (record {
          output = output.new;
          marks = marks.new;
          refusal = result;
          drawn = drawn.new;
          left = left.new;
        }) }
{
    face::refresh(NINE, header, picture, output, marks, n, drawn, left)
}

// The words of a block.
#[unsafe(no_mangle)]
pub extern "C" fn panel9_show(
    header: &[u32; 8],
    output: &[u32],
    marks: &[u8],
    bx: u32,
    by: u32,
    words: &mut [u32; 81],
) -> u32
    ensures { Shows screen9 (header_of header.now)
        output.now marks.now bx by
        (record { refusal = result; words = words.new }) }
{
    *words = [0; 81];
    face::show(NINE, header, output, marks, bx, by, words)
}

// The header with another rectangle locked.
#[unsafe(no_mangle)]
pub extern "C" fn panel9_lock(
    header: &[u32; 8],
    left: u32,
    top: u32,
    width: u32,
    height: u32,
    locked: &mut [u32; 8],
) -> u32
    ensures { Locks screen9 (header_of header.now) (record { left = left; top = top; width = width; height = height })
        (record { refusal = result; header = header_of locked.new })
        × (locked.new ≡ numbers_of (header_of locked.new)) }
{
    face::lock(NINE, header, left, top, width, height, locked)
}
