// The records that a buffer keeps for a rectangle of the picture, four elements each, row by row.
#![tactic(auto)]

ghost use Rattle.std.specs.Prelude.{◌≡◌, ◌+◌, ◌-◌, ◌*◌, ◌^◌, ◌<◌};
ghost use Rattle.grid.specs.Grid.{start_of};
ghost use Rattle.grid.specs.Room.{Within};

pub use record::Record;
pub use records::Records;

pub mod pass;
pub mod place;
pub mod record;
pub mod records;

// A rectangle of the picture: its first column and row, its columns and rows.
#[derive(Clone, Copy)]
pub struct Grid {
    pub x0: u32,
    pub y0: u32,
    pub cols: u32,
    pub rows: u32,
}

impl Grid {
    // The first element of the record of (x, y), which the rectangle holds.
    fn start(self, x: u32, y: u32) -> usize
        requires { (Within self x y) × (self.rows * (self.cols * 4) < 2 ^ 64) }
        ensures { result ≡ start_of self x y }
    {
        let row = (y - self.y0) as usize;
        let col = (x - self.x0) as usize;
        (row * (self.cols as usize) + col) * 4
    }
}
