// Headers and items as the arrays of numbers that the C face takes: w, h, left, top, width and height of the lock, and kind and pattern of
// the setting of clarity; column, row and word. They are functions and no `From`: both types stand in crates below, `header_of` is lent its
// numbers, and `numbers_of` asks for a lawful setting.
#![tactic(auto)]

ghost use Rattle.std.specs.Prelude.{◌≡◌, map, ◌≤◌, T, length};
ghost use Rattle.std.specs.Float.{binary32};
ghost use Rattle.std.specs.Float.Ieee.{to_bits};
ghost use Rattle.clarity.specs.declared.Clarity.TheVariants.{Threshold, Gated};
ghost use Rattle.clarity.specs.Clarity.{lawful_single, lawful_of, clarity_of, kind_of};
ghost use Rattle.paints.specs.Paints.{gathered};
ghost use Rattle.arrays.specs.Header.{header_of, bits_of, numbers_of};
ghost use Rattle.arrays.specs.Item.{paint_of};

use clarity::{Clarity, clarity_of, kind_of};
use gathered::gather_items;
use header::{Header, Rectangle};
use paints::Paint;

// The header that its numbers stand for.
pub fn header_of(numbers: &[u32; 8]) -> Header
    ensures { result ≡ header_of numbers.now }
{
    let [w, h, left, top, width, height, kind, bits] = *numbers;
    Header {
        w,
        h,
        lock: Rectangle {
            left,
            top,
            width,
            height,
        },
        clarity: clarity_of(kind, bits),
    }
}

// The pattern of a lawful single, which is never that of a NaN.
fn pattern(t: f32) -> u32
    requires { T (lawful_single t) }
    ensures { (result ≡ to_bits binary32 t) × ((clarity_of 1 result ≡ Threshold t) × (clarity_of 2 result ≡ Gated t)) }
{
    f32::to_bits(t)
}

// The pattern of a setting's threshold, 0 at the standard. With the kind it stands for the setting again.
fn bits_of(clarity: Clarity) -> u32
    requires { T (lawful_of clarity) }
    ensures { (result ≡ bits_of clarity) × (clarity_of (kind_of clarity) result ≡ clarity) }
{
    match clarity {
        Clarity::Standard => 0,
        Clarity::Threshold(t) | Clarity::Gated(t) => pattern(t),
    }
}

// The numbers of a header, which stand for it again.
pub fn numbers_of(header: Header) -> [u32; 8]
    requires { T (lawful_of header.clarity) }
    ensures { (result ≡ numbers_of header) × (header_of result ≡ header) }
{
    let lock = header.lock;
    let clarity = header.clarity;
    [
        header.w,
        header.h,
        lock.left,
        lock.top,
        lock.width,
        lock.height,
        kind_of(clarity),
        bits_of(clarity),
    ]
}

// The paints that the first m items of a list stand for, by value.
pub fn paints_of(items: &[[u32; 3]], m: usize) -> [Paint; 64]
    requires { (m ≤ length items.now) × (m ≤ 64) }
    ensures { result ≡ gathered (map paint_of items.now) m }
{
    gather_items(items, m)
}
