// `trace_edges` of scalefx.rs: the tags of a pixel, with the flags of the four corners side by side in a word.
#![tactic(auto)]

ghost use Rattle.std.specs.Prelude.{◌≡◌};
ghost use Rattle.tag.specs.Tag.{trace_edges};
ghost use Rattle.tag.specs.Words.{corners_of, both_of, mids_of, tags_word, split_of, near_of, near_answer};

use junction::Junctions;
use lanes::{ONES, Pair, above, across, after, choose, down, opposite, own, word};
use level::{around, farther, level2, level3, level4_near};
use tag::{
    AFTER, Cross, FAR_H, FAR_V, FIRST_END, Far, FarCorners, FarMids, NEAR_H, NEAR_V, Neighbors,
    OUTWARD, OWN, SECOND_END, Tags,
};

// The corner tags, from the pixel's own flags, level 3 and what lies farther away: a corner takes the first of the source's branches that
// holds there.
#[tactic(auto, unfolding(tag::specs::Words::corners_of, lanes::specs::Lanes::lanes))]
fn corners(e: u32, l3: Pair, f: FarCorners) -> u32
    ensures { result ≡ corners_of e l3 f }
{
    let c = e & ONES;
    let o = e / 8 & ONES;
    let first = c & o | l3.h & across(o) | f.first;
    let second = c | l3.v & (down(o) ^ ONES) | f.second;
    let rest = choose(l3.h, FAR_H, choose(l3.v, FAR_V, f.tag));
    choose(first, NEAR_V, choose(second, NEAR_H, rest))
}

// The last branch of the mid-edge tags: both corners of the side are active, and so is the one across from each.
#[tactic(auto, unfolding(tag::specs::Words::both_of, lanes::specs::Lanes::lanes))]
fn both(e: u32, n: Neighbors, o1: u32, o2: u32) -> u32
    ensures { result ≡ both_of e n o1 o2 }
{
    let c = e & ONES;
    let p = Pair {
        h: opposite(n.ho & ONES),
        v: opposite(n.vo & ONES),
    };
    let all = c & own(p) & after(Pair { h: c, v: c }) & after(p);
    choose(all, choose(o1, choose(o2, OUTWARD, AFTER), OWN), 0)
}

// The mid-edge tags, in the same way. The source's [i][0] is the side's own corner at the top and on the right, the one after it at the
// bottom and on the left.
#[tactic(auto, unfolding(tag::specs::Words::mids_of, lanes::specs::Lanes::lanes))]
fn mids(e: u32, l2: Pair, n: Neighbors, f: FarMids) -> u32
    ensures { result ≡ mids_of e l2 n f }
{
    let o = Pair {
        h: e / 8 & ONES,
        v: e / 8 & ONES ^ ONES,
    };
    let o1 = own(o);
    let o2 = after(o);
    let x = own(l2);
    let y = after(l2);
    let a = above(x, y);
    let b = above(y, x);
    let first = a & above(o1, o2) | b & above(o2, o1) | f.first;
    let rest = choose(f.any, f.tag, both(e, n, o1, o2));
    choose(
        first,
        OUTWARD,
        choose(a, FIRST_END, choose(b, SECOND_END, rest)),
    )
}

// c + 9m in each byte. In 64 bits and modulo 2 ^ 32, so that the sum asks no bound of its parts.
#[tactic(auto, unfolding(tag::specs::Words::tags_word))]
fn tags_word(e: u32, n: Neighbors, f: Far) -> u32
    ensures { result ≡ tags_word e n f }
{
    let l2 = level2(e, n);
    let l3 = level3(l2, n);
    let fc = f.corners;
    let fm = f.mids;
    let c = corners(e, l3, fc) as u64;
    let m = mids(e, l2, n, fm) as u64;
    ((c + 9 * m) % 0x1_0000_0000) as u32
}

// The tags that a word holds, one in each byte.
#[tactic(auto, unfolding(tag::specs::Words::split_of))]
fn split(t: u32) -> Tags
    ensures { result ≡ split_of t }
{
    Tags {
        t0: (t % 256) as u8,
        t1: (t / 256 % 256) as u8,
        t2: (t / 65536 % 256) as u8,
        t3: (t / 16777216) as u8,
    }
}

// The tags of a pixel, from its junctions and those beside it. What lies two and three pixels away counts only where a run of four may
// pass: there the answer is None, for `trace_edges` to find the tags.
pub fn trace_near(e: Junctions, near: Cross<Junctions>) -> Option<Tags>
    ensures { near_answer result ≡ near_of e near.left near.right near.up near.down }
{
    let w = word(e);
    let n = around(near);
    let p = level4_near(w, n);
    if (p.h | p.v) != 0 {
        return None;
    }
    // No own corner is active.
    if w & ONES == 0 {
        return Some(split(0));
    }
    let f = Far::default();
    Some(split(tags_word(w, n, f)))
}

// The tags of a pixel, from its junctions and those to the left, right, above and below at the distances 1, 2 and 3.
pub fn trace_edges(
    e: Junctions,
    d1: Cross<Junctions>,
    d2: Cross<Junctions>,
    d3: Cross<Junctions>,
) -> Tags
    ensures { result
        ≡ trace_edges e d1.left d2.left d3.left d1.right d2.right d3.right d1.up d2.up d3.up d1.down d2.down d3.down }
{
    let w = word(e);
    let n = around(d1);
    let p = level4_near(w, n);
    let f = farther(p, n, d2, d3);
    split(tags_word(w, n, f))
}
