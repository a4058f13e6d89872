// How near two colours are: the whole number N of request 8, in 32 bits.
#![tactic(auto)]

ghost use Rattle.std.specs.Prelude.{◌≡◌, ◌*◌, ◌≤◌};
ghost use Rattle.colour.specs.Nearness.{nearness_of, squared};
ghost use Rattle.colour.specs.Weighed.{weighed_of};

use channels::{blue, green, red};

// k times n squared.
fn times_square(k: u32, n: u8) -> u32
    requires { k ≤ 2040 }
    ensures { (result ≡ k * squared n) × (result ≤ k * 65025) }
{
    let n = n as u32;
    k * (n * n)
}

#[tactic(auto, unfolding(crate::specs::Weighed::weighed_of, crate::specs::Nearness::gap))]
// N of two reds and of the gaps of the greens and the blues.
fn weighed(r: u8, s: u8, g: u8, b: u8) -> u32
    ensures { (result ≡ weighed_of r s g b) × (result ≤ 298464750) }
{
    let reds = r as u32 + s as u32;
    times_square(1020 + reds, r.abs_diff(s)) + times_square(2040, g) + times_square(1530 - reds, b)
}

#[tactic(auto, using(crate::proofs::Laws::weighed_is), unfolding(crate::specs::Nearness::nearness_of, crate::specs::Nearness::gap))]
// N of two words.
pub fn nearness(p: u32, q: u32) -> u32
    ensures { (result ≡ nearness_of p q) × (result ≤ 298464750) }
{
    weighed(
        red(p),
        red(q),
        green(p).abs_diff(green(q)),
        blue(p).abs_diff(blue(q)),
    )
}
