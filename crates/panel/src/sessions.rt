// The calls of the three-times session. `arrays` says how header and items are handed over. The calls of `sessions9` are the same at
// another screen, and stay functions of their own, since C has a name and a signature for each, and its contract names the screen: what
// they do is said once, in `face`.
ghost use Rattle.std.specs.Prelude.{◌≡◌, map};
ghost use Rattle.clarity.specs.Clarity.{setting_of};
ghost use Rattle.machine.specs.Calls.{Opens, Paints, PaintLists, Refreshes, Shows, Locks};
ghost use Rattle.three.specs.Three.{screen3};
ghost use Rattle.arrays.specs.Header.{header_of, numbers_of};
ghost use Rattle.arrays.specs.Item.{paint_of};

use screens::THREE;

// A session opened on a picture, at the setting that a kind and a single stand for; its header and its stale count.
#[unsafe(no_mangle)]
pub extern "C" fn panel_open(
    w: u32,
    h: u32,
    clarity: u32,
    threshold: f32,
    picture: &[u32],
    output: &mut [u32],
    marks: &mut [u8],
    header: &mut [u32; 8],
    stale: &mut u32,
) -> u32
    ensures { Opens screen3 w h (setting_of clarity threshold) picture.now output.old marks.old
        (record {
          output = output.new;
          marks = marks.new;
          refusal = result;
          header = header_of header.new;
          stale = stale.new;
        }) × (header.new ≡ numbers_of (header_of header.new)) }
{
    face::open(
        THREE, w, h, clarity, threshold, picture, output, marks, header, stale,
    )
}

// One word of the picture painted.
#[unsafe(no_mangle)]
pub extern "C" fn panel_paint(
    header: &[u32; 8],
    picture: &mut [u32],
    marks: &mut [u8],
    column: u32,
    row: u32,
    word: u32,
    changed: &mut u32,
    stale: &mut u32,
) -> u32
    ensures { Paints screen3 (header_of header.now)
        picture.old marks.old column row word
        (record {
          picture = picture.new;
          marks = marks.new;
          refusal = result;
          changed = changed.new;
          stale = stale.new;
        }) }
{
    face::paint(
        THREE, header, picture, marks, column, row, word, changed, stale,
    )
}

// The paints of a list, all or none.
#[unsafe(no_mangle)]
pub extern "C" fn panel_paint_list(
    header: &[u32; 8],
    picture: &mut [u32],
    marks: &mut [u8],
    items: &[[u32; 3]],
    stale: &mut u32,
) -> u32
    ensures { PaintLists screen3 (header_of header.now)
        picture.old marks.old (map paint_of items.now)
        (record {
          picture = picture.new;
          marks = marks.new;
          refusal = result;
          stale = stale.new;
        }) }
{
    face::paint_list(THREE, header, picture, marks, items, stale)
}

// The first n stale blocks drawn.
#[unsafe(no_mangle)]
pub extern "C" fn panel_refresh(
    header: &[u32; 8],
    picture: &[u32],
    output: &mut [u32],
    marks: &mut [u8],
    n: u32,
    drawn: &mut u32,
    left: &mut u32,
) -> u32
    ensures { Refreshes screen3 (header_of header.now)
        picture.now output.old marks.old n
        (record {
          output = output.new;
          marks = marks.new;
          refusal = result;
          drawn = drawn.new;
          left = left.new;
        }) }
{
    face::refresh(THREE, header, picture, output, marks, n, drawn, left)
}

// The words of a block.
#[unsafe(no_mangle)]
pub extern "C" fn panel_show(
    header: &[u32; 8],
    output: &[u32],
    marks: &[u8],
    bx: u32,
    by: u32,
    words: &mut [u32; 9],
) -> u32
    ensures { Shows screen3 (header_of header.now)
        output.now marks.now bx by
        (record { refusal = result; words = words.new }) }
{
    *words = [0; 9];
    face::show(THREE, header, output, marks, bx, by, words)
}

// The header with another rectangle locked.
#[unsafe(no_mangle)]
pub extern "C" fn panel_lock(
    header: &[u32; 8],
    left: u32,
    top: u32,
    width: u32,
    height: u32,
    locked: &mut [u32; 8],
) -> u32
    ensures { Locks screen3 (header_of header.now) (record { left = left; top = top; width = width; height = height })
        (record { refusal = result; header = header_of locked.new })
        × (locked.new ≡ numbers_of (header_of locked.new)) }
{
    face::lock(THREE, header, left, top, width, height, locked)
}
