// Singles: the square root, rounded to the nearest single, and the larger, the smaller and the clamped of singles as Rust has them.
#![tactic(auto)]

ghost use Rattle.std.specs.Prelude.{◌≡◌, ◌<◌, T};
ghost use Rattle.picture.specs.Answer.{refusal_of};
ghost use Rattle.single.specs.Root.{root_bits, sqrt_of, rooted, root_answer, carried};
ghost use Rattle.single.specs.Parts.{PartsOf};
ghost use Rattle.single.specs.Single.{max_of, min_of, clamp_of};

use picture::refusal::Refusal;

// The root of x; refused where x has its sign bit set (-0.0 too), is infinite or is not a number.
pub fn root(x: f32) -> Result<f32, Refusal>
    ensures { record { refusal = refusal_of result; root = carried result } ≡ root_answer x }
{
    if x.is_nan() {
        return Err(Refusal::Operand);
    }
    // a number's pattern is below the infinity's, or it is infinite or has its sign bit set
    if x.to_bits() < 0x7f80_0000 {
        return Ok(sqrt(x));
    }
    Err(Refusal::Operand)
}

// The root of an x that its caller has shown to be finite and to have no sign bit.
pub fn sqrt(x: f32) -> f32
    requires { T (rooted x) }
    ensures { result ≡ sqrt_of x }
{
    f32::from_bits(root_bits(x.to_bits()))
}

// The pattern of the root of the single with the pattern b, which is finite and has no sign bit.
fn root_bits(b: u32) -> u32
    requires { b < 0x7f80_0000 }
    ensures { result ≡ root_bits b }
{
    if b == 0 {
        return 0;
    }
    let Parts { m, e } = parts_of(b);
    // m * 2 ^ (23 + e) is w * 4 ^ (e / 2), with a w of 47 or 48 digits: the root has the digits of w's root, and half the exponent
    let r = integer_root::near_root((m as u64) << (23 + e % 2));
    e / 2 * 0x80_0000 + r as u32
}

// A single of m * 2 ^ (e - 126) units of 2 ^ -149, m having 24 digits.
#[derive(Clone, Copy)]
struct Parts {
    m: u32,
    e: u32,
}

fn parts_of(b: u32) -> Parts
    requires { (0 < b) × (b < 0x7f80_0000) }
    ensures { PartsOf b result.m result.e }
{
    if b < 0x80_0000 {
        let z = b.leading_zeros() - 8;
        Parts {
            m: b << z,
            e: 126 - z,
        }
    } else {
        Parts {
            m: 0x80_0000 + b % 0x80_0000,
            e: (b >> 23) + 125,
        }
    }
}

// std's `max`, `min` and `clamp` answer the other operand where one is a NaN; these have `max_of`, `min_of` and `clamp_of`, which take the
// second, and compile to one instruction.

// x.max(y) in Rust, where neither is a NaN.
#[tactic(auto, unfolding(crate::specs::Single::max_of))]
pub fn max(x: f32, y: f32) -> f32
    ensures { result ≡ max_of x y }
{
    if x > y { x } else { y }
}

// x.min(y) in Rust, where neither is a NaN.
#[tactic(auto, unfolding(crate::specs::Single::min_of))]
pub fn min(x: f32, y: f32) -> f32
    ensures { result ≡ min_of x y }
{
    if x < y { x } else { y }
}

// x.clamp(lo, hi) in Rust, where none is a NaN and lo is at most hi.
#[tactic(auto, unfolding(crate::specs::Single::clamp_of))]
pub fn clamp(x: f32, lo: f32, hi: f32) -> f32
    ensures { result ≡ clamp_of x lo hi }
{
    if x < lo {
        return lo;
    }
    if x > hi {
        return hi;
    }
    x
}
