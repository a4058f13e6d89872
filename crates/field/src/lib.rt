// The passes of the metrics and the weights over a rectangle of pixels: each reads its neighbours' words or records at places stopped at
// the picture's borders, and writes one record a pixel.
#![tactic(auto)]

ghost use Rattle.std.specs.Prelude.{◌≡◌, ◌<◌, length};
ghost use Rattle.picture.specs.Picture.{words};
ghost use Rattle.picture.specs.Fill.{put};
ghost use Rattle.metric.specs.Distance.{distance_of};
ghost use Rattle.metric.specs.Metric.{metrics};
ghost use Rattle.weight.specs.Weight.{weights};
ghost use Rattle.grid.specs.Grid.{of_metric, of_weights, metric_field, rect_of};
ghost use Rattle.grid.specs.Room.{Held, Around, Inner, Feeds};

use clarity::Clarity;
use grid::pass::{Pass, fill_rect};
use grid::place::three_at;
use grid::{Grid, Records};
use metric::{Known, Metric, Weights, metric_of};
use picture::whole::Picture;
use weight::weights_of;

// The pass of the metrics. It remembers a distance from pixel to pixel, since most neighbours have the same two words.
#[derive(Clone, Copy)]
struct Measuring<'a> {
    picture: Picture<'a>,
    known: Known,
    ghost is: { known.d ≡ distance_of known.p known.q },
}

impl Pass for Measuring<'_> {
    type Made = Metric;

    ghost reaches = { λ s x y. (x < s.picture.w) × (y < s.picture.h) };

    ghost field = { λ s. metrics s.picture.w s.picture.h (words s.picture.w s.picture.words.now) };

    #[tactic(auto, unfolding(metric::specs::Metric::metrics))]
    fn record_at(&mut self, x: u32, y: u32) -> Metric {
        let p = self.picture;
        let xs = three_at(x, p.w);
        let ys = three_at(y, p.h);
        let measured = metric_of(
            p.at(xs.at, ys.at),
            p.at(xs.before, ys.before),
            p.at(xs.at, ys.before),
            p.at(xs.after, ys.before),
            p.at(xs.after, ys.at),
            self.known,
        );
        self.known = measured.known;
        measured.metric
    }
}

// The metrics of the rectangle g, at the front of the singles.
pub fn metrics_rect(picture: Picture, g: Grid, singles: &mut [f32])
    requires { (Inner g picture.w picture.h) × (Held g (length singles.old)) }
    ensures { singles.new
        ≡ put 0 (rect_of of_metric g (metrics picture.entry.w picture.entry.h (words picture.entry.w picture.entry.words.now)))
        singles.old }
{
    let known = Known { p: 0, q: 0, d: 0.0 };
    fill_rect(&mut Measuring { picture, known }, g, singles);
}

// The pass of the weights.
#[derive(Clone, Copy)]
struct Weighing<'a> {
    clarity: Clarity,
    metrics: Records<'a, Metric>,
    w: u32,
    h: u32,
}

impl Pass for Weighing<'_> {
    type Made = Weights;

    ghost reaches = { λ s x y. Around 1 1 s.metrics.of s.w s.h x y };

    ghost field = { λ s. weights s.clarity s.w s.h (metric_field s.metrics.of s.metrics.elements.now) };

    #[tactic(auto, unfolding(weight::specs::Weight::weights, grid::specs::Grid::metric_field))]
    fn record_at(&mut self, x: u32, y: u32) -> Weights {
        weights_of(self.clarity, self.metrics.around(self.w, self.h, x, y))
    }
}

// The weights of the rectangle v of a picture of w by h words, from its metrics, at the front of the singles.
pub fn weights_rect(
    clarity: Clarity,
    metrics: Records<Metric>,
    w: u32,
    h: u32,
    v: Grid,
    singles: &mut [f32],
)
    requires { (Feeds 1 1 metrics.of w h v) × (Held v (length singles.old)) }
    ensures { singles.new
        ≡ put 0 (rect_of of_weights v (weights clarity w h (metric_field metrics.entry.of metrics.entry.elements.now))) singles.old }
{
    fill_rect(
        &mut Weighing {
            clarity,
            metrics,
            w,
            h,
        },
        v,
        singles,
    );
}
