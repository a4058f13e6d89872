// What a list of paints may hold: a paint, or three numbers that stand for one.
ghost use Rattle.std.specs.Prelude.{◌≡◌, get_or};
ghost use Rattle.paints.specs.declared.Paint.{Paint};

use crate::Paint;

pub trait Item: Copy {
    // The paint that it stands for.
    ghost paint: { Self → Paint };

    fn paint(self) -> Paint
        ensures { result ≡ paint self };
}

impl Item for Paint {
    ghost paint = { λ item. item };

    fn paint(self) -> Paint {
        self
    }
}

// Column, row and word.
impl Item for [u32; 3] {
    ghost paint = { λ item. record { column = get_or item 0 0; row = get_or item 1 0; word = get_or item 2 0 } };

    fn paint(self) -> Paint {
        let [column, row, word] = self;
        Paint { column, row, word }
    }
}
