// Which corners of a pixel are active at its junctions, of the weights around it, with flags where the source has the singles 0.0 and 1.0.
// `specs/Active.antt` is what the code computes.
#![tactic(auto)]

ghost use Rattle.std.specs.Prelude.{◌≡◌};
ghost use Rattle.active_corners.specs.Active.{at0, at1, at2, at3, dominance_of, vote_of, inject_of, suppress_of, weightless_of};
ghost use Rattle.active_corners.specs.Active.{active_corners};

use metric::{Around, Weights};

// The source's [f32; 3]: a corner's weight, between those before and after it around its pixel. No array: definitions name the three.
#[derive(Clone, Copy)]
pub struct Triple(pub f32, pub f32, pub f32);

// A corner at its junction: its vote, and whether it is active before the suppression.
#[derive(Clone, Copy)]
pub struct Corner {
    pub vote: bool,
    pub active: bool,
}

// Which corners of a pixel are active, after the suppression. No array, as the definition `suppress_of` names the four.
#[derive(Clone, Copy)]
pub struct Active {
    pub a0: bool,
    pub a1: bool,
    pub a2: bool,
    pub a3: bool,
}

#[tactic(auto, using(single::proofs::Constants::two_is), unfolding(crate::specs::Active::dominance_of))]
fn dominance(a: Triple) -> f32
    ensures { result ≡ dominance_of a }
{
    2.0 * a.1 - (a.0 + a.2)
}

#[tactic(auto, using(single::proofs::Constants::zero_is), unfolding(crate::specs::Active::vote_of))]
fn vote(own: f32, next: f32, opposite: f32, prev: f32) -> bool
    ensures { result ≡ vote_of own next opposite prev }
{
    (own > 0.0) & ((next <= 0.0) & (prev <= 0.0) | (own + opposite > next + prev))
}

#[tactic(auto, using(single::proofs::Constants::zero_is), unfolding(crate::specs::Active::inject_of))]
fn inject(own: Triple, next: Triple, opposite: Triple, prev: Triple) -> Corner
    ensures { result ≡ inject_of own next opposite prev }
{
    let d = dominance(own);
    let dn = dominance(next);
    let dw = dominance(opposite);
    let dp = dominance(prev);
    let v = vote(d, dn, dw, dp);
    let active = v
        | (!vote(dn, dw, dp, d)
            & !vote(dp, d, dn, dw)
            & (own.1 > 0.0)
            & (vote(dw, dp, d, dn) | (opposite.1 + own.1 > next.1 + prev.1)));
    Corner { vote: v, active }
}

// Each corner of the pixel c at its junction.
fn top_left(c: Weights, l: Weights, tl: Weights, t: Weights) -> Corner
    ensures { result ≡ inject_of (at0 c) (at1 l) (at2 tl) (at3 t) }
{
    inject(
        Triple(c.w3, c.w0, c.w1),
        Triple(l.w0, l.w1, l.w2),
        Triple(tl.w1, tl.w2, tl.w3),
        Triple(t.w2, t.w3, t.w0),
    )
}

fn top_right(c: Weights, t: Weights, tr: Weights, r: Weights) -> Corner
    ensures { result ≡ inject_of (at1 c) (at2 t) (at3 tr) (at0 r) }
{
    inject(
        Triple(c.w0, c.w1, c.w2),
        Triple(t.w1, t.w2, t.w3),
        Triple(tr.w2, tr.w3, tr.w0),
        Triple(r.w3, r.w0, r.w1),
    )
}

fn bottom_right(c: Weights, r: Weights, br: Weights, b: Weights) -> Corner
    ensures { result ≡ inject_of (at2 c) (at3 r) (at0 br) (at1 b) }
{
    inject(
        Triple(c.w1, c.w2, c.w3),
        Triple(r.w2, r.w3, r.w0),
        Triple(br.w3, br.w0, br.w1),
        Triple(b.w0, b.w1, b.w2),
    )
}

fn bottom_left(c: Weights, b: Weights, bl: Weights, l: Weights) -> Corner
    ensures { result ≡ inject_of (at3 c) (at0 b) (at1 bl) (at2 l) }
{
    inject(
        Triple(c.w2, c.w3, c.w0),
        Triple(b.w3, b.w0, b.w1),
        Triple(bl.w0, bl.w1, bl.w2),
        Triple(l.w1, l.w2, l.w3),
    )
}

// End-of-line suppression, which reads the corners as they were before it.
#[tactic(auto, unfolding(crate::specs::Active::suppress_of))]
fn suppress(k0: Corner, k1: Corner, k2: Corner, k3: Corner) -> Active
    ensures { result ≡ suppress_of k0 k1 k2 k3 }
{
    Active {
        a0: k0.active & (k0.vote | !(k3.active & k1.active)),
        a1: k1.active & (k1.vote | !(k0.active & k2.active)),
        a2: k2.active & (k2.vote | !(k1.active & k3.active)),
        a3: k3.active & (k3.vote | !(k2.active & k0.active)),
    }
}

// The pixel's weights are all 0.0, of either sign.
#[tactic(auto, using(single::proofs::Constants::zero_is), unfolding(crate::specs::Active::weightless_of))]
pub fn weightless(c: Weights) -> bool
    ensures { result ≡ weightless_of c }
{
    (c.w0 == 0.0) & (c.w1 == 0.0) & (c.w2 == 0.0) & (c.w3 == 0.0)
}

// The active corners of a pixel, of the weights around it.
#[tactic(auto, unfolding(crate::specs::Active::active_corners))]
pub fn active_corners(s: Around<Weights>) -> Active
    ensures { result ≡ active_corners s.tl s.t s.tr s.l s.c s.r s.bl s.b s.br }
{
    suppress(
        top_left(s.c, s.l, s.tl, s.t),
        top_right(s.c, s.t, s.tr, s.r),
        bottom_right(s.c, s.r, s.br, s.b),
        bottom_left(s.c, s.b, s.bl, s.l),
    )
}
