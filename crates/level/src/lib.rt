// The levels of `trace_edges`, each for the four corners at once, and what those of two and three pixels away give to the tags. A junction
// number is active + 2 horizontal + 4 vertical + 8 orientation: of a word x of numbers, `x / 2 & ONES` are the horizontal flags.
#![tactic(auto)]

ghost use Rattle.std.specs.Prelude.{◌≡◌};
ghost use Rattle.tag.specs.Words.{around_of, level2_of, level3_of, level4_near, level4_of, level5_of, level6_of};
ghost use Rattle.tag.specs.Words.{far_corners, far_mids, far_of};

use junction::Junctions;
use lanes::{ONES, Pair, above, across, after, beside, choose, down, opposite, own, word};
use tag::{
    Cross, FAR_H, FAR_V, FIRST_END, Far, FarCorners, FarMids, NEAR_H, NEAR_V, Neighbors, SECOND_END,
};

// The junction numbers of the pixels left, right, above and below, for each corner by its own side and by the other.
#[tactic(auto, unfolding(tag::specs::Words::around_of))]
pub fn around(x: Cross<Junctions>) -> Neighbors
    ensures { result ≡ around_of x.left x.right x.up x.down }
{
    let l = word(x.left);
    let r = word(x.right);
    let u = word(x.up);
    let d = word(x.down);
    Neighbors {
        hs: beside(l, r),
        ho: beside(r, l),
        vs: above(u, d),
        vo: above(d, u),
    }
}

// Level 2: the mid edge between two corners, of which this one is active.
#[tactic(auto, unfolding(tag::specs::Words::level2_of))]
pub fn level2(e: u32, n: Neighbors) -> Pair
    ensures { result ≡ level2_of e n }
{
    let c = e & ONES;
    Pair {
        h: c & across(e / 2 & ONES) & opposite(n.ho & ONES),
        v: c & down(e / 4 & ONES) & opposite(n.vo & ONES),
    }
}

// Level 3: the corner beyond a level 2.
#[tactic(auto, unfolding(tag::specs::Words::level3_of))]
pub fn level3(p: Pair, n: Neighbors) -> Pair
    ensures { result ≡ level3_of p n }
{
    let h = n.hs / 2 & ONES;
    let v = n.vs / 4 & ONES;
    Pair {
        h: across(p.h) & across(n.ho / 2 & ONES) & h & opposite(h),
        v: down(p.v) & down(n.vo / 4 & ONES) & v & opposite(v),
    }
}

// Level 4, but for what lies two pixels away: where it is 0, as on most of a page, nothing farther away counts.
#[tactic(auto, unfolding(tag::specs::Words::level4_near))]
pub fn level4_near(e: u32, n: Neighbors) -> Pair
    ensures { result ≡ level4_near e n }
{
    let eh = e / 2 & ONES;
    let ev = e / 4 & ONES;
    let h = n.ho / 2 & ONES;
    let v = n.vo / 4 & ONES;
    Pair {
        h: n.hs & ONES & across(h) & eh & across(eh) & h & across(n.hs / 2 & ONES),
        v: n.vs & ONES & down(v) & ev & down(ev) & v & down(n.vs / 4 & ONES),
    }
}

// Level 4: a run of four pixels.
#[tactic(auto, unfolding(tag::specs::Words::level4_of))]
fn level4(p: Pair, n2: Neighbors) -> Pair
    ensures { result ≡ level4_of p n2 }
{
    Pair {
        h: p.h & opposite(n2.ho & ONES) & down(n2.hs / 2 & ONES),
        v: p.v & opposite(n2.vo & ONES) & across(n2.vs / 4 & ONES),
    }
}

// Level 5: the mid edge of a run of four.
#[tactic(auto, unfolding(tag::specs::Words::level5_of))]
fn level5(p: Pair, n2: Neighbors, n3: Neighbors) -> Pair
    ensures { result ≡ level5_of p n2 n3 }
{
    let h = n2.ho / 2 & ONES;
    let v = n2.vo / 4 & ONES;
    Pair {
        h: p.h & h & across(n2.hs / 2 & ONES) & opposite(n3.ho / 2 & ONES) & down(n3.hs / 2 & ONES),
        v: p.v & v & down(n2.vs / 4 & ONES) & opposite(n3.vo / 4 & ONES) & across(n3.vs / 4 & ONES),
    }
}

// Level 6: a run of six pixels.
#[tactic(auto, unfolding(tag::specs::Words::level6_of))]
fn level6(p: Pair, n3: Neighbors) -> Pair
    ensures { result ≡ level6_of p n3 }
{
    let h = n3.hs / 2 & ONES;
    let v = n3.vs / 4 & ONES;
    Pair {
        h: across(p.h) & across(n3.ho / 2 & ONES) & h,
        v: down(p.v) & down(n3.vo / 4 & ONES) & v,
    }
}

// What the levels 4 and 6 give to the corner tags. The tag of the second pixel in a direction is one more than that of the first.
#[tactic(auto, unfolding(tag::specs::Words::far_corners, lanes::specs::Lanes::lanes))]
fn far_corners(n: Neighbors, l4: Pair, l6: Pair) -> FarCorners
    ensures { result ≡ far_corners n l4 l6 }
{
    let h = n.hs / 8 & ONES;
    let v = n.vs / 8 & ONES ^ ONES;
    let last = choose(l6.h, FAR_H + ONES, choose(l6.v, FAR_V + ONES, 0));
    FarCorners {
        first: l4.h & h | l6.h & across(h),
        second: l4.v & v | l6.v & down(v),
        tag: choose(l4.h, NEAR_H + ONES, choose(l4.v, NEAR_V + ONES, last)),
    }
}

// What level 5 gives to the mid-edge tags.
#[tactic(auto, unfolding(tag::specs::Words::far_mids, lanes::specs::Lanes::lanes))]
fn far_mids(n: Neighbors, l5: Pair) -> FarMids
    ensures { result ≡ far_mids n l5 }
{
    let o = Pair {
        h: n.hs / 8 & ONES,
        v: n.vs / 8 & ONES ^ ONES,
    };
    let o1 = own(o);
    let o2 = after(o);
    let x = own(l5);
    let y = after(l5);
    let a = above(x, y);
    let b = above(y, x);
    FarMids {
        first: a & above(o1, o2) | b & above(o2, o1),
        any: a | b,
        tag: choose(a, FIRST_END + ONES, choose(b, SECOND_END + ONES, 0)),
    }
}

// What lies two and three pixels away.
#[tactic(auto, unfolding(tag::specs::Words::far_of))]
pub fn farther(p: Pair, n: Neighbors, d2: Cross<Junctions>, d3: Cross<Junctions>) -> Far
    ensures { result ≡ far_of p n (around_of d2.left d2.right d2.up d2.down) (around_of d3.left d3.right d3.up d3.down) }
{
    let n2 = around(d2);
    let n3 = around(d3);
    let l4 = level4(p, n2);
    let l5 = level5(l4, n2, n3);
    let l6 = level6(l5, n3);
    Far {
        corners: far_corners(n, l4, l6),
        mids: far_mids(n, l5),
    }
}
