// The three-times screen: its definition, the proof that it is lawful, and the marks that a changing paint makes.
#![tactic(auto)]

ghost use Rattle.std.specs.Prelude.{◌≡◌, ◌*◌, ◌≤◌, length};
ghost use Rattle.machine.specs.Lists.{stamp};
ghost use Rattle.machine.specs.Machine.{names};
ghost use Rattle.three.specs.Three.{screen3};

use marks::{Pixel, Reach, mark_box};

// The blocks that may depend on a changed pixel make a cross. Its wide arm.
const WIDE: Reach = Reach {
    side: 6,
    up: 2,
    down: 3,
};

// Its high arm.
const HIGH: Reach = Reach {
    side: 3,
    up: 5,
    down: 6,
};

// The blocks that a changing paint of the pixel names made stale: one arm of the cross, and then the other.
pub fn mark_paint(marks: &mut [u8], at: Pixel)
    requires { at.w * at.h ≤ length marks.old }
    ensures { marks.new ≡ stamp (names screen3 at.w at.h at.column at.row) 1 marks.old }
{
    mark_box(marks, at, WIDE);
    mark_box(marks, at, HIGH);
}
