// The nine-times screen: its definition, the proof that it is lawful, and the marks that a changing paint makes.
#![tactic(auto)]

ghost use Rattle.std.specs.Prelude.{◌≡◌, ◌*◌, ◌≤◌, length};
ghost use Rattle.machine.specs.Lists.{stamp};
ghost use Rattle.machine.specs.Machine.{names};
ghost use Rattle.nine.specs.Nine.{screen9};

use marks::{Pixel, Reach, mark_box};

// The blocks that may depend on a changed pixel make a box.
const BOX: Reach = Reach {
    side: 8,
    up: 7,
    down: 8,
};

// The blocks that a changing paint of the pixel names made stale.
pub fn mark_paint(marks: &mut [u8], at: Pixel)
    requires { at.w * at.h ≤ length marks.old }
    ensures { marks.new ≡ stamp (names screen9 at.w at.h at.column at.row) 1 marks.old }
{
    mark_box(marks, at, BOX);
}
