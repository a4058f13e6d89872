// A pass over a rectangle of pixels: a record is worked out at each pixel and stored, row by row. The whole picture and the rectangles
// round a tile are the same passes on other rectangles.
#![tactic(auto)]

ghost use Rattle.std.specs.Prelude.{◌≡◌, ℕ, ◌+◌, ◌*◌, ◌^◌, ◌<◌, ◌≤◌, length};
ghost use Rattle.picture.specs.Fill.{put};
ghost use Rattle.grid.specs.Grid.{row_of, rect_of};
ghost use Rattle.grid.specs.Room.{Held, Within};

use crate::{Grid, Record};

// What a pass works out, and may remember from pixel to pixel.
pub trait Pass {
    type Made: Record;

    // The pixels whose records can be worked out, and those records.
    ghost reaches: { Self → ℕ → ℕ → Type 0 };

    ghost field: { Self → ℕ → ℕ → Self.Made };

    // The record of (x, y).
    fn record_at(&mut self, x: u32, y: u32) -> Self::Made
        requires { reaches self.old x y }
        ensures made { result ≡ field self.old x y }
        ensures field_kept { field self.new ≡ field self.old }
        ensures reach_kept { (x y : ℕ) → reaches self.old x y → reaches self.new x y };
}

// The records of row y of the rectangle g, from the element `at` on.
fn fill_row<P: Pass>(
    pass: &mut P,
    g: Grid,
    y: u32,
    s: &mut [<P::Made as Record>::Element],
    at: usize,
)
    requires reached { (i : ℕ) → i < g.cols → P.reaches pass.old (g.x0 + i) y }
    requires room { (g.x0 + g.cols < 2 ^ 32) × (at + g.cols * 4 ≤ length s.old) }
    ensures made { s.new ≡ put at (row_of P.Made.elements g (P.field pass.old) y) s.old }
    ensures field_kept { P.field pass.new ≡ P.field pass.old }
    ensures reach_kept { (x y : ℕ) → P.reaches pass.old x y → P.reaches pass.new x y }
{
    for k in 0..g.cols {
        pass.record_at(g.x0 + k, y).store(s, at + (k as usize) * 4);
    }
}

// The records of the rectangle g, at the front of s.
pub fn fill_rect<P: Pass>(pass: &mut P, g: Grid, s: &mut [<P::Made as Record>::Element])
    requires reached { (x y : ℕ) → Within g x y → P.reaches pass.old x y }
    requires room { (g.x0 + g.cols < 2 ^ 32) × ((g.y0 + g.rows < 2 ^ 32) × (Held g (length s.old))) }
    ensures { s.new ≡ put 0 (rect_of P.Made.elements g (P.field pass.old)) s.old }
{
    let row = (g.cols as usize) * 4;
    for k in 0..g.rows {
        fill_row(pass, g, g.y0 + k, s, (k as usize) * row);
    }
}
