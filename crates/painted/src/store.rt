// What a paint and a paint list store, once nothing refuses them: words in the picture, and 1 at the marks of the blocks that each changed
// word names. Neither counts the marks.
ghost use Rattle.std.specs.Prelude.{◌≡◌, cond, length};
ghost use Rattle.machine.specs.Calls.{refusal_paint, items_end};
ghost use Rattle.machine.specs.Items.{StoresWord, StoresItems};
ghost use Rattle.screens.specs.Screens.{screen_of};

use header::Header;
use paints::Paint;
use screens::mark_paint;

// One word stored at its place where it is another, and the blocks that may depend on it made stale: whether it was.
pub fn store_word(
    scale: u32,
    header: Header,
    picture: &mut [u32],
    marks: &mut [u8],
    paint: Paint,
) -> bool
    requires { refusal_paint (screen_of scale).side header picture.old (length marks.old)
        paint.column paint.row paint.word ≡ 0 }
    ensures { StoresWord (screen_of scale) header picture.old marks.old paint.column paint.row paint.word
        picture.new marks.new (cond result 1 0) }
{
    let at = header.place(paint.column, paint.row);
    let old = picture[at];
    if paint.word == old {
        return false;
    }
    picture[at] = paint.word;
    mark_paint(scale, marks, header.w, header.h, paint.column, paint.row);
    true
}

// The items, one after another.
pub fn store_items(
    scale: u32,
    header: Header,
    picture: &mut [u32],
    marks: &mut [u8],
    items: &[Paint],
)
    requires { (items_end (screen_of scale) header items.now picture.old marks.old).refusal ≡ 0 }
    ensures { StoresItems (screen_of scale) header picture.old marks.old items.now
        picture.new marks.new }
{
    for item in items {
        let _ = store_word(scale, header, picture, marks, *item);
    }
}
