// Distances and metrics: `color_distance`, `unpack_norm` and `compute_metrics` of scalefx.rs, and the record of the weights that the next
// pass makes of them. Each operation is rounded once, in the order in which the source writes it.
#![tactic(auto)]

ghost use Rattle.std.specs.Prelude.{◌≡◌, ◌%◌, ◌^◌, ◌≤◌, eqb};
ghost use Rattle.channels.specs.Channels.{red_of, green_of, blue_of};
ghost use Rattle.metric.specs.Distance.{norm, distance_of};
ghost use Rattle.metric.specs.Metric.{metric_of};

use channels::{blue, green, red};

// A word's channels, each from 0 to 1.
#[derive(Clone, Copy)]
struct Rgb {
    r: f32,
    g: f32,
    b: f32,
}

// n as f32 / 255.0, by the pattern of 2^23 + n: the machine's conversion keeps a part of its register,
// so that each distance would wait for the one before.
fn norm_of(n: u8) -> f32
    ensures { result ≡ norm n }
{
    (f32::from_bits(0x4B000000 + n as u32) - 8388608.0) / 255.0
}

fn unpack_norm(c: u32) -> Rgb
    ensures { (result.r ≡ norm (red_of c)) × (result.g ≡ norm (green_of c)) × (result.b ≡ norm (blue_of c)) }
{
    Rgb {
        r: norm_of(red(c)),
        g: norm_of(green(c)),
        b: norm_of(blue(c)),
    }
}

// The source's `color_distance`.
fn root_distance(p: u32, q: u32) -> f32
    ensures { result ≡ distance_of p q }
{
    let a = unpack_norm(p);
    let b = unpack_norm(q);
    let mean_r = 0.5 * (a.r + b.r);
    let rd = a.r - b.r;
    let gd = a.g - b.g;
    let bd = a.b - b.b;
    let weighted = (2.0 + mean_r) * rd * rd + 4.0 * gd * gd + (3.0 - mean_r) * bd * bd;
    single::sqrt(single::max(weighted, 0.0)) / 3.0
}

// The low 24 bits agree.
fn same(p: u32, q: u32) -> bool
    ensures { result ≡ eqb (p % 2 ^ 24) (q % 2 ^ 24) }
{
    (p & 0xFFFFFF) == (q & 0xFFFFFF)
}

// Most neighbours on a page are equal, and need no root.
pub fn color_distance(p: u32, q: u32) -> f32
    ensures { result ≡ distance_of p q }
{
    if same(p, q) {
        return 0.0;
    }
    root_distance(p, q)
}

// A pixel's metric: its distances to top-left, top, top-right and right.
#[derive(Clone, Copy)]
pub struct Metric {
    pub tl: f32,
    pub t: f32,
    pub tr: f32,
    pub r: f32,
}

// The distance of c and q, where d is that of c and o.
fn distance_by(c: u32, q: u32, o: u32, d: f32) -> f32
    requires { d ≡ distance_of c o }
    ensures { result ≡ distance_of c q }
{
    if q == o {
        return d;
    }
    color_distance(c, q)
}

// Two words and their distance, kept for the pixels that follow.
#[derive(Clone, Copy)]
pub struct Known {
    pub p: u32,
    pub q: u32,
    pub d: f32,
}

// The distance of p and q: the one that is known, where it is that of these two words.
fn distance_after(k: Known, p: u32, q: u32) -> f32
    requires { k.d ≡ distance_of k.p k.q }
    ensures { result ≡ distance_of p q }
{
    if (p == k.p) & (q == k.q) | (p == k.q) & (q == k.p) {
        return k.d;
    }
    color_distance(p, q)
}

// A pixel's metric, and the distance that is known after it.
#[derive(Clone, Copy)]
pub struct Measured {
    pub metric: Metric,
    pub known: Known,
}

// The metric of the pixel c, beside its neighbours.
pub fn metric_of(c: u32, tl: u32, t: u32, tr: u32, r: u32, k: Known) -> Measured
    requires { k.d ≡ distance_of k.p k.q }
    ensures { (result.metric ≡ metric_of c tl t tr r) × (result.known.d ≡ distance_of result.known.p result.known.q) }
{
    // On plain ground one test serves for all four.
    if same(c, tl) & same(c, t) & same(c, tr) & same(c, r) {
        let metric = Metric {
            tl: 0.0,
            t: 0.0,
            tr: 0.0,
            r: 0.0,
        };
        return Measured { metric, known: k };
    }
    // A page has few colours: the neighbours that differ from c are mostly one word, and its root serves for all of them, and for the
    // next pixel too where that has the same two words.
    let o = if !same(c, tl) {
        tl
    } else if !same(c, t) {
        t
    } else if !same(c, tr) {
        tr
    } else {
        r
    };
    let d = distance_after(k, c, o);
    let metric = Metric {
        tl: distance_by(c, tl, o, d),
        t: distance_by(c, t, o, d),
        tr: distance_by(c, tr, o, d),
        r: distance_by(c, r, o, d),
    };
    Measured {
        metric,
        known: Known { p: c, q: o, d },
    }
}

// What lies around a pixel, and its own, c: top-left, top, top-right, left, right, bottom-left, bottom and bottom-right of it.
#[derive(Clone, Copy)]
pub struct Around<T> {
    pub tl: T,
    pub t: T,
    pub tr: T,
    pub l: T,
    pub c: T,
    pub r: T,
    pub bl: T,
    pub b: T,
    pub br: T,
}

// The source's [f32; 2]; no array, since the definitions `number_of` and `condition_of` name the two.
#[derive(Clone, Copy)]
pub struct Pair(pub f32, pub f32);

// A pixel's weights: its corners top-left, top-right, bottom-right and bottom-left. The crate `weight` has what they are. No array, since
// definitions and theorems name the four.
#[derive(Clone, Copy)]
pub struct Weights {
    pub w0: f32,
    pub w1: f32,
    pub w2: f32,
    pub w3: f32,
}
