// The pass of the junctions over a rectangle of pixels: it reads the metrics and the weights round each pixel at places stopped at the
// picture's borders, and writes one record a pixel.
#![tactic(auto)]

ghost use Rattle.std.specs.Prelude.{◌≡◌, length};
ghost use Rattle.picture.specs.Fill.{put};
ghost use Rattle.junction.specs.Junction.{junctions};
ghost use Rattle.grid.specs.Grid.{of_junctions, metric_field, weights_field, rect_of};
ghost use Rattle.grid.specs.Room.{Held, Around, Feeds};

use grid::pass::{Pass, fill_rect};
use grid::{Grid, Records};
use junction::{Junctions, arbitrate_junctions};
use metric::{Metric, Weights};

// The pass of the junctions.
#[derive(Clone, Copy)]
struct Joining<'a> {
    metrics: Records<'a, Metric>,
    weights: Records<'a, Weights>,
    w: u32,
    h: u32,
}

impl Pass for Joining<'_> {
    type Made = Junctions;

    ghost reaches = { λ s x y. (Around 1 1 s.metrics.of s.w s.h x y) × (Around 1 1 s.weights.of s.w s.h x y) };

    ghost field = { λ s. junctions s.w s.h (metric_field s.metrics.of s.metrics.elements.now)
        (weights_field s.weights.of s.weights.elements.now) };

    #[tactic(auto, unfolding(junction::specs::Junction::junctions, grid::specs::Grid::metric_field, grid::specs::Grid::weights_field))]
    fn record_at(&mut self, x: u32, y: u32) -> Junctions {
        arbitrate_junctions(
            self.metrics.around(self.w, self.h, x, y),
            self.weights.around(self.w, self.h, x, y),
        )
    }
}

// The junctions of the rectangle q of a picture of w by h words, from its metrics and weights, at the front of the bytes.
pub fn junctions_rect(
    metrics: Records<Metric>,
    weights: Records<Weights>,
    w: u32,
    h: u32,
    q: Grid,
    bytes: &mut [u8],
)
    requires { (Feeds 1 1 metrics.of w h q) × ((Feeds 1 1 weights.of w h q) × (Held q (length bytes.old))) }
    ensures { bytes.new ≡ put 0 (rect_of of_junctions q (junctions w h (metric_field metrics.entry.of metrics.entry.elements.now)
        (weights_field weights.entry.of weights.entry.elements.now))) bytes.old }
{
    let mut joining = Joining {
        metrics,
        weights,
        w,
        h,
    };
    fill_rect(&mut joining, q, bytes);
}
