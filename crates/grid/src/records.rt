// The records that a list holds of a rectangle of the picture, row by row, and those round a pixel.
#![tactic(auto)]

ghost use Rattle.std.specs.Prelude.{◌≡◌, ⊤, length};
ghost use Rattle.grid.specs.Near.{field_of, around_of};
ghost use Rattle.grid.specs.Room.{Held, Within, Around};

use crate::place::three_at;
use crate::{Grid, Record};
use std::alloc::AllocError;

// The elements of a rectangle's records, which stand at their front.
pub struct Records<'a, R: Record> {
    pub elements: &'a [R::Element],
    pub of: Grid,
    pub ghost held: { Held of (length elements.now) },
}

impl<R: Record> Clone for Records<'_, R> {
    ghost is_clone = { λ x y. y ≡ x };

    ghost is_infallible = { λ _. ⊤ };

    fn clone(&self) -> Result<Self, AllocError> {
        Ok(*self)
    }
}

impl<R: Record> Copy for Records<'_, R> {}

impl<'a, R: Record> Records<'a, R> {
    // The record of (x, y), which the rectangle holds.
    pub fn at(self, x: u32, y: u32) -> R
        requires { Within self.of x y }
        ensures { result ≡ field_of R.at self.entry.of self.entry.elements.now x y }
    {
        R::load(self.elements, self.of.start(x, y))
    }

    // The records round (x, y), read at places stopped at the picture's borders.
    pub fn around(self, w: u32, h: u32, x: u32, y: u32) -> metric::Around<R>
        requires { Around 1 1 self.of w h x y }
        ensures { result ≡ around_of w h (field_of R.at self.entry.of self.entry.elements.now) x y }
    {
        let xs = three_at(x, w);
        let ys = three_at(y, h);
        metric::Around {
            tl: self.at(xs.before, ys.before),
            t: self.at(xs.at, ys.before),
            tr: self.at(xs.after, ys.before),
            l: self.at(xs.before, ys.at),
            c: self.at(xs.at, ys.at),
            r: self.at(xs.after, ys.at),
            bl: self.at(xs.before, ys.after),
            b: self.at(xs.at, ys.after),
            br: self.at(xs.after, ys.after),
        }
    }
}
