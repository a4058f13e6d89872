// Records of four elements in a list: what a buffer keeps for each pixel. The definitions are those of `specs/Grid.antt`.
#![tactic(auto)]

ghost use Rattle.std.specs.Prelude.{◌≡◌, ℕ, ◌+◌, ◌≤◌, List, length, refl};
ghost use Rattle.picture.specs.Fill.{put};
ghost use Rattle.grid.specs.Grid.{of_metric, of_weights, of_junctions, of_tags, metric_at, weights_at, junctions_at, tags_at};

use junction::Junctions;
use metric::{Metric, Weights};
use tag::Tags;

// A record that stands as four elements.
pub trait Record: Copy {
    type Element: Copy;

    // The record that starts at an element of a list, and the four elements of a record.
    ghost at: { List Self.Element → ℕ → Self };

    ghost elements: { Self → List Self.Element };

    // The record that starts at element i.
    fn load(s: &[Self::Element], i: usize) -> Self
        requires { i + 4 ≤ length s.now }
        ensures { result ≡ at s.now i };

    // The record's elements stored from element i on.
    fn store(self, s: &mut [Self::Element], i: usize)
        requires { i + 4 ≤ length s.old }
        ensures { s.new ≡ put i (elements self) s.old };

    ghost four: { (r : Self) → length (elements r) ≡ 4 };
}

#[tactic(auto, using(picture::specs::Fill::stored4), unfolding(crate::specs::Grid::metric_at))]
impl Record for Metric {
    type Element = f32;

    ghost at = { metric_at };

    ghost elements = { of_metric };

    ghost four = { λ r. refl };

    fn load(s: &[f32], i: usize) -> Metric {
        Metric {
            tl: s[i],
            t: s[i + 1],
            tr: s[i + 2],
            r: s[i + 3],
        }
    }

    fn store(self, s: &mut [f32], i: usize) {
        s[i] = self.tl;
        s[i + 1] = self.t;
        s[i + 2] = self.tr;
        s[i + 3] = self.r;
    }
}

#[tactic(auto, using(picture::specs::Fill::stored4), unfolding(crate::specs::Grid::weights_at))]
impl Record for Weights {
    type Element = f32;

    ghost at = { weights_at };

    ghost elements = { of_weights };

    ghost four = { λ r. refl };

    fn load(s: &[f32], i: usize) -> Weights {
        Weights {
            w0: s[i],
            w1: s[i + 1],
            w2: s[i + 2],
            w3: s[i + 3],
        }
    }

    fn store(self, s: &mut [f32], i: usize) {
        s[i] = self.w0;
        s[i + 1] = self.w1;
        s[i + 2] = self.w2;
        s[i + 3] = self.w3;
    }
}

#[tactic(auto, using(picture::specs::Fill::stored4), unfolding(crate::specs::Grid::junctions_at))]
impl Record for Junctions {
    type Element = u8;

    ghost at = { junctions_at };

    ghost elements = { of_junctions };

    ghost four = { λ r. refl };

    fn load(s: &[u8], i: usize) -> Junctions {
        Junctions {
            n0: s[i],
            n1: s[i + 1],
            n2: s[i + 2],
            n3: s[i + 3],
        }
    }

    fn store(self, s: &mut [u8], i: usize) {
        s[i] = self.n0;
        s[i + 1] = self.n1;
        s[i + 2] = self.n2;
        s[i + 3] = self.n3;
    }
}

#[tactic(auto, using(picture::specs::Fill::stored4), unfolding(crate::specs::Grid::tags_at))]
impl Record for Tags {
    type Element = u8;

    ghost at = { tags_at };

    ghost elements = { of_tags };

    ghost four = { λ r. refl };

    fn load(s: &[u8], i: usize) -> Tags {
        Tags {
            t0: s[i],
            t1: s[i + 1],
            t2: s[i + 2],
            t3: s[i + 3],
        }
    }

    fn store(self, s: &mut [u8], i: usize) {
        s[i] = self.t0;
        s[i + 1] = self.t1;
        s[i + 2] = self.t2;
        s[i + 3] = self.t3;
    }
}
