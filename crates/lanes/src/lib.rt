// The four corners of a pixel in one word, corner i in byte i; in a word of flags each byte is 0 or 1.
// What is done to a word is done to the four corners at once. Bytes are moved by 256, 65536 and 16777216, which are 2 ^ 8, 2 ^ 16 and
// 2 ^ 24: compiled code shifts and masks.
#![tactic(auto)]

ghost use Rattle.std.specs.Prelude.{◌≡◌};
ghost use Rattle.lanes.specs.Lanes.{word_of, across, down, opposite, beside, above, own, after, choose};

use junction::Junctions;

// 1 in each byte.
pub const ONES: u32 = 0x01010101;

// A word for the horizontal edges, and one for the vertical ones.
#[derive(Clone, Copy)]
pub struct Pair {
    pub h: u32,
    pub v: u32,
}

// The junction numbers of a pixel.
#[tactic(auto, unfolding(crate::specs::Lanes::lanes))]
pub fn word(j: Junctions) -> u32
    ensures { result ≡ word_of j }
{
    (j.n0 as u32) + (j.n1 as u32) * 256 + (j.n2 as u32) * 65536 + (j.n3 as u32) * 16777216
}

// The corners 1 0 3 2: across the pixel.
#[tactic(auto, unfolding(crate::specs::Lanes::across))]
pub fn across(x: u32) -> u32
    ensures { result ≡ across x }
{
    x / 256 & 0x00ff00ff | (x & 0x00ff00ff) * 256
}

// The corners 3 2 1 0: down the pixel.
#[tactic(auto, unfolding(crate::specs::Lanes::down))]
pub fn down(x: u32) -> u32
    ensures { result ≡ down x }
{
    x / 16777216 + x / 65536 % 256 * 256 + x / 256 % 256 * 65536 + x % 256 * 16777216
}

// The corners 2 3 0 1: the opposite ones.
#[tactic(auto, unfolding(crate::specs::Lanes::opposite))]
pub fn opposite(x: u32) -> u32
    ensures { result ≡ opposite x }
{
    x / 65536 + x % 65536 * 65536
}

// The left corners, 0 and 3, of l, and the right ones of r.
#[tactic(auto, unfolding(crate::specs::Lanes::beside))]
pub fn beside(l: u32, r: u32) -> u32
    ensures { result ≡ beside l r }
{
    l % 256 + r / 256 % 65536 * 256 + l / 16777216 * 16777216
}

// The top corners, 0 and 1, of u, and the bottom ones of d.
#[tactic(auto, unfolding(crate::specs::Lanes::above))]
pub fn above(u: u32, d: u32) -> u32
    ensures { result ≡ above u d }
{
    u % 65536 + d / 65536 * 65536
}

// For each side of the pixel, top, right, bottom, left: its corner of the same number, along that side.
#[tactic(auto, unfolding(crate::specs::Lanes::own))]
pub fn own(p: Pair) -> u32
    ensures { result ≡ own p.h p.v }
{
    p.h % 256 + p.v / 256 % 256 * 256 + p.h / 65536 % 256 * 65536 + p.v / 16777216 * 16777216
}

// For each side its other corner, the next one around the pixel.
#[tactic(auto, unfolding(crate::specs::Lanes::after))]
pub fn after(p: Pair) -> u32
    ensures { result ≡ after p.h p.v }
{
    let x = own(Pair { h: p.v, v: p.h });
    x / 256 + x % 256 * 16777216
}

// In each byte a where the flag is 1, b where it is 0.
#[tactic(auto, unfolding(crate::specs::Lanes::choose))]
pub fn choose(flags: u32, a: u32, b: u32) -> u32
    ensures { result ≡ choose flags a b }
{
    let m = (flags & ONES) * 255;
    a & m | b & (0xffffffff - m)
}
