// Reading the words of a picture at signed positions, clamped to its borders.
#![tactic(auto)]

ghost use Rattle.std.specs.Prelude.{◌≡◌};
ghost use Rattle.picture.specs.Picture.{clamp_z, moved, near, words};

pub mod reader;
pub mod refusal;
pub mod whole;

// A signed position on an axis of n places, clamped to the axis.
pub fn clamp(x: i64, n: u32) -> u32
    ensures { result ≡ clamp_z n x }
{
    let last = i64::from(n.saturating_sub(1));
    x.clamp(0, last) as u32
}

// The place p moved by the offset d, and clamped.
#[tactic(auto, unfolding(crate::specs::Picture::moved))]
pub fn shift(p: u32, d: i32, n: u32) -> u32
    ensures { result ≡ moved n p d }
{
    clamp(i64::from(p) + i64::from(d), n)
}

// The word at an offset from (x, y), clamped at both borders; 0 past the last one. Its parameters are those of the definition `near`: it is
// the function on the plain slice that the reader is a thin one over.
pub fn get(picture: &[u32], w: u32, h: u32, x: u32, y: u32, dx: i32, dy: i32) -> u32
    ensures { result ≡ near w h (words w picture.now) x y dx dy }
{
    let cx = shift(x, dx, w) as usize;
    let cy = shift(y, dy, h) as usize;
    let i = cy * (w as usize) + cx;
    picture.get(i).copied().unwrap_or(0)
}
