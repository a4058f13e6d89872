// A session's header, one thing that every call but the opening is lent: the picture's width and height, one locked rectangle, the lock,
// and the setting of clarity that blocks are drawn by. `specs/Header.antt` says what a lock holds and when a rectangle reaches past the
// picture.
#![tactic(auto)]

ghost use Rattle.std.specs.Prelude.{◌≡◌, ◌&&◌, ◌+◌, ◌*◌, ◌<◌, ltb};
ghost use Rattle.header.specs.Header.{locked, past, fresh, with_lock, no_header};

use clarity::Clarity;

// A rectangle of the picture: its first column and row, its columns and rows. As a lock of width or height 0 it locks nothing, whatever
// the other three are. The default is four 0s.
#[derive(Clone, Copy, Default)]
pub struct Rectangle {
    pub left: u32,
    pub top: u32,
    pub width: u32,
    pub height: u32,
}

#[derive(Clone, Copy)]
pub struct Header {
    pub w: u32,
    pub h: u32,
    pub lock: Rectangle,
    pub clarity: Clarity,
}

// The first column past a rectangle, or the first row: in 64 bits, since in 32 a sum near 2^32 would wrap.
fn end(start: u32, length: u32) -> u64
    ensures { result ≡ start + length }
{
    (start as u64) + (length as u64)
}

impl Rectangle {
    // The first column past it, and the first row.
    fn right(self) -> u64
        ensures { result ≡ self.left + self.width }
    {
        end(self.left, self.width)
    }

    fn bottom(self) -> u64
        ensures { result ≡ self.top + self.height }
    {
        end(self.top, self.height)
    }

    // The position lies in it, as a lock.
    #[tactic(auto, unfolding(crate::specs::Header::locked))]
    pub fn locked(self, column: u32, row: u32) -> bool
        ensures { result ≡ locked self column row }
    {
        ((self.left <= column) & ((column as u64) < self.right()))
            & ((self.top <= row) & ((row as u64) < self.bottom()))
    }

    // It reaches past a picture of w by h.
    #[tactic(auto, unfolding(crate::specs::Header::past))]
    pub fn past(self, w: u32, h: u32) -> bool
        ensures { result ≡ past w h self }
    {
        ((0 < self.width) & (0 < self.height))
            & (((w as u64) < self.right()) | ((h as u64) < self.bottom()))
    }
}

impl Header {
    // The header that an opening answers: no lock.
    pub fn fresh(w: u32, h: u32, clarity: Clarity) -> Header
        ensures { result ≡ fresh w h clarity }
    {
        let lock = Rectangle::default();
        Header {
            w,
            h,
            lock,
            clarity,
        }
    }

    // The header with another lock.
    pub fn with_lock(self, lock: Rectangle) -> Header
        ensures { result ≡ with_lock self lock }
    {
        Header { lock, ..self }
    }

    // How many blocks the picture has, a word and a mark each.
    pub fn blocks(self) -> usize
        ensures { result ≡ self.w * self.h }
    {
        (self.w as usize) * (self.h as usize)
    }

    // The picture has the position.
    pub fn has(self, column: u32, row: u32) -> bool
        ensures { result ≡ (ltb column self.w && ltb row self.h) }
    {
        (column < self.w) & (row < self.h)
    }

    // Which word of the picture stands at a position, and which mark, in row order: inside, where the picture has the position.
    pub fn place(self, column: u32, row: u32) -> usize
        ensures row_order { result ≡ row * self.w + column }
        ensures inside { column < self.w → row < self.h → result < self.w * self.h }
    {
        (row as usize) * (self.w as usize) + (column as usize)
    }
}

// By hand, since a setting has no default of its own.
impl Default for Header {
    ghost is_default = { λ header. header ≡ no_header };

    // The header that stands beside a refusal.
    fn default() -> Header {
        Header::fresh(0, 0, Clarity::Standard)
    }
}
