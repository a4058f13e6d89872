// Corner weights at a setting of clarity: `corner_weight` and `compute_corner_weights` of scalefx.rs. Each operation is rounded once, in
// the order in which the source writes it.
#![tactic(auto)]

ghost use Rattle.std.specs.Prelude.{◌≡◌, true, cond, ◌&&◌, T, Float};
ghost use Rattle.std.specs.Float.Ieee.{neg, eq};
ghost use Rattle.single.specs.Single.{f0};
ghost use Rattle.clarity.specs.Clarity.{threshold_of, lawful_of};
ghost use Rattle.weight.specs.Weight.{weight_at, gate_open, corner_weight_of, weights_of};
ghost use Rattle.weight.specs.Plain.{plain_of, gate_closed};

use clarity::{Clarity, lawful};
use metric::{Around, Metric, Pair, Weights};

const CLARITY_THRESHOLD: f32 = 0.50;

// The bias, turned where the second axis is the stronger.
fn stronger_axis(first: bool, bias: f32) -> f32
    ensures { result ≡ cond first bias (neg bias) }
{
    if first { bias } else { -bias }
}

// The source's `corner_weight`, at a threshold.
fn weight_at(threshold: f32, edge_dist: f32, primary: Pair, secondary: Pair) -> f32
    ensures { result ≡ weight_at threshold edge_dist primary.0 primary.1 secondary.0 secondary.1 }
{
    let proximity = single::max(threshold - edge_dist, 0.0) / threshold;
    let bias = primary.0 - primary.1;
    let first = single::min(primary.0, secondary.0) + primary.0
        > single::min(primary.1, secondary.1) + primary.1;
    let direction = single::clamp(1.0 - edge_dist + stronger_axis(first, bias), 0.0, 1.0);
    proximity * direction * primary.0 * primary.1
}

// The gate is open: 2 times the edge distance is below the sum of the primary ones, product and sum in single precision.
#[tactic(auto, using(single::proofs::Constants::two_is))]
fn gate_open(edge_dist: f32, primary: Pair) -> bool
    ensures { result ≡ gate_open edge_dist primary.0 primary.1 }
{
    2.0 * edge_dist < primary.0 + primary.1
}

// The setting has a gate, and it is closed.
fn gate_closed(clarity: Clarity, edge_dist: f32, primary: Pair) -> bool
    ensures { result ≡ gate_closed clarity edge_dist primary.0 primary.1 }
{
    match clarity {
        Clarity::Standard | Clarity::Threshold(_) => false,
        Clarity::Gated(_) => !gate_open(edge_dist, primary),
    }
}

// The threshold of a setting.
#[tactic(auto, using(single::proofs::Constants::half_is))]
fn threshold_of(clarity: Clarity) -> f32
    ensures { result ≡ threshold_of clarity }
{
    match clarity {
        Clarity::Standard => CLARITY_THRESHOLD,
        Clarity::Threshold(t) | Clarity::Gated(t) => t,
    }
}

// A corner's weight at a setting. The gate is asked last, so that a pixel's four corners are worked out side by side, without a branch.
pub fn corner_weight(clarity: Clarity, edge_dist: f32, primary: Pair, secondary: Pair) -> f32
    ensures { result ≡ corner_weight_of clarity edge_dist primary.0 primary.1 secondary.0 secondary.1 }
{
    let weight = weight_at(threshold_of(clarity), edge_dist, primary, secondary);
    if gate_closed(clarity, edge_dist, primary) {
        return 0.0;
    }
    weight
}

// Plain ground: all distances that a pixel's weights hang on are 0.
fn plain(l: Metric, c: Metric, r: Metric, b: Metric) -> bool
    ensures { result ≡ plain_of l c r b }
{
    (l.tr == 0.0)
        & (l.r == 0.0)
        & (c.t == 0.0)
        & (c.r == 0.0)
        & (r.tl == 0.0)
        & (b.tl == 0.0)
        & (b.t == 0.0)
        & (b.tr == 0.0)
}

// A weight there is the product of its primary ones, whatever their signs, and a gate is closed.
// A setting that is not lawful has other weights there: 0 / 0 is no number.
fn plain_weight(clarity: Clarity, p: f32, q: f32) -> f32
    requires { T (lawful_of clarity && eq p f0 && eq q f0) }
    ensures { (e s0 s1 : Float) → eq e f0 ≡ true → result ≡ corner_weight_of clarity e p q s0 s1 }
{
    match clarity {
        Clarity::Standard | Clarity::Threshold(_) => p * q,
        Clarity::Gated(_) => 0.0,
    }
}

// The weights of a pixel, of the metrics around it; that of the pixel at the top-right, m.tr, is not read.
pub fn weights_of(clarity: Clarity, m: Around<Metric>) -> Weights
    ensures { result ≡ weights_of clarity m.tl m.t m.l m.c m.r m.bl m.b m.br }
{
    let Around { l, c, r, b, .. } = m;
    if plain(l, c, r, b) & lawful(clarity) {
        return Weights {
            w0: plain_weight(clarity, l.r, c.t),
            w1: plain_weight(clarity, c.r, c.t),
            w2: plain_weight(clarity, c.r, b.t),
            w3: plain_weight(clarity, l.r, b.t),
        };
    }
    Weights {
        w0: corner_weight(clarity, l.tr, Pair(l.r, c.t), Pair(m.tl.r, l.t)),
        w1: corner_weight(clarity, r.tl, Pair(c.r, c.t), Pair(m.t.r, r.t)),
        w2: corner_weight(clarity, b.tr, Pair(c.r, b.t), Pair(b.r, m.br.t)),
        w3: corner_weight(clarity, b.tl, Pair(l.r, b.t), Pair(m.bl.r, m.bl.t)),
    }
}
