// Section 4: the junctions of a pixel, `arbitrate_junctions` of scalefx.rs, with flags where the source
// has the singles 0.0 and 1.0. `specs/Junction.antt` is the source, `specs/Flags.antt` what the code
// computes, and `proofs/Same.antt` shows that the two give the same numbers.
#![tactic(auto)]

ghost use Rattle.std.specs.Prelude.{◌≡◌, ◌≤◌};
ghost use Rattle.junction.specs.Junction.{arbitrate_junctions};
ghost use Rattle.junction.specs.Flags.{bit, condition_of, number_of, numbers_of};

use active_corners::{Active, active_corners, weightless};
use metric::{Around, Metric, Pair, Weights};
use single::{max, min};

// The junction numbers of a pixel's corners: active + 2 horizontal + 4 vertical + 8 orientation. No array, since definitions and theorems
// name the four.
#[derive(Clone, Copy)]
pub struct Junctions {
    pub n0: u8,
    pub n1: u8,
    pub n2: u8,
    pub n3: u8,
}

const NO_CORNER: Active = Active {
    a0: false,
    a1: false,
    a2: false,
    a3: false,
};

#[tactic(auto, unfolding(crate::specs::Flags::condition_of))]
fn junction_condition(diagonal: Pair, orth_a: Pair, orth_b: Pair) -> bool
    ensures { result ≡ condition_of diagonal orth_a orth_b }
{
    (diagonal.0 >= max(min(orth_a.0, orth_a.1), min(orth_b.0, orth_b.1)))
        & (diagonal.1 >= max(min(orth_a.0, orth_b.1), min(orth_b.0, orth_a.1)))
}

// n where t holds, and 0 otherwise.
fn flag(t: bool, n: u8) -> u8
    ensures { (result ≡ bit t n) × (result ≤ n) }
{
    if t { n } else { 0 }
}

// A corner's number. Of each pair the first is along a row, the second along a column.
#[tactic(auto, unfolding(crate::specs::Flags::number_of))]
fn number(active: bool, diagonal: Pair, orth_a: Pair, orth_b: Pair) -> u8
    ensures { result ≡ number_of active diagonal orth_a orth_b }
{
    let h_edge = min(orth_a.0, orth_b.0);
    let v_edge = min(orth_a.1, orth_b.1);
    let orient = h_edge + orth_a.0 > v_edge + orth_a.1;
    let less = h_edge < v_edge;
    let more = h_edge > v_edge;
    let jcond = junction_condition(diagonal, orth_a, orth_b);
    flag(active, 1) + flag(less & jcond, 2) + flag(more & jcond, 4) + flag(orient, 8)
}

// The numbers of a pixel, of the metrics around it, of which m.tr is not read, and of its active corners.
#[tactic(auto, unfolding(crate::specs::Flags::numbers_of))]
fn numbers_of(m: Around<Metric>, k: Active) -> Junctions
    ensures { result ≡ numbers_of m.tl m.t m.l m.c m.r m.bl m.b m.br k }
{
    Junctions {
        n0: number(
            k.a0,
            Pair(m.l.tr, m.c.tl),
            Pair(m.l.r, m.c.t),
            Pair(m.tl.r, m.l.t),
        ),
        n1: number(
            k.a1,
            Pair(m.r.tl, m.c.tr),
            Pair(m.c.r, m.c.t),
            Pair(m.t.r, m.r.t),
        ),
        n2: number(
            k.a2,
            Pair(m.b.tr, m.br.tl),
            Pair(m.c.r, m.b.t),
            Pair(m.b.r, m.br.t),
        ),
        n3: number(
            k.a3,
            Pair(m.b.tl, m.bl.tr),
            Pair(m.l.r, m.b.t),
            Pair(m.bl.r, m.bl.t),
        ),
    }
}

// The junctions of a pixel, of the metrics and the weights around it; the metric at the top-right, m.tr, is not read.
pub fn arbitrate_junctions(m: Around<Metric>, s: Around<Weights>) -> Junctions
    ensures { result
        ≡ arbitrate_junctions m.tl m.t m.l m.c m.r m.bl m.b m.br s.tl s.t s.tr s.l s.c s.r s.bl s.b s.br }
{
    // The corners of a weightless pixel, as most of a page are, are not active whatever is around it. This is the only branch, and the
    // numbers stand on both of its sides, so that compiled code finds the four corners side by side.
    if weightless(s.c) {
        return numbers_of(m, NO_CORNER);
    }
    let k = active_corners(s);
    numbers_of(m, k)
}
