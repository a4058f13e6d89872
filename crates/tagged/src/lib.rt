// The pass of the tags over a rectangle of pixels: it reads the junctions out to distance 3 at places stopped at the picture's borders,
// and writes one record a pixel, as the passes of the crate `field` do.
#![tactic(auto)]

ghost use Rattle.std.specs.Prelude.{◌≡◌, ◌<◌, ◌≤◌, length};
ghost use Rattle.picture.specs.Fill.{put};
ghost use Rattle.tag.specs.Tag.{tags};
ghost use Rattle.grid.specs.Grid.{of_tags, junctions_field, rect_of};
ghost use Rattle.grid.specs.Near.{cross_of};
ghost use Rattle.grid.specs.Room.{Held, Around, Feeds};

use grid::pass::{Pass, fill_rect};
use grid::place::places_at;
use grid::{Grid, Records};
use junction::Junctions;
use tag::{Cross, Tags};
use trace::{trace_edges, trace_near};

// The pass of the tags.
#[derive(Clone, Copy)]
struct Tagging<'a> {
    junctions: Records<'a, Junctions>,
    w: u32,
    h: u32,
}

impl Tagging<'_> {
    // The junctions to the left and right of (x, y), above and below it, at the distance d.
    fn cross(&self, x: u32, y: u32, d: u32) -> Cross<Junctions>
        requires { (Around 3 3 self.now.junctions.of self.now.w self.now.h x y) × ((0 < d) × (d ≤ 3)) }
        ensures { result ≡ cross_of self.now.w self.now.h (junctions_field self.now.junctions.of self.now.junctions.elements.now) x y d }
    {
        let xs = places_at(x, d, self.w);
        let ys = places_at(y, d, self.h);
        let j = self.junctions;
        Cross {
            left: j.at(xs.before, y),
            right: j.at(xs.after, y),
            up: j.at(x, ys.before),
            down: j.at(x, ys.after),
        }
    }
}

impl Pass for Tagging<'_> {
    type Made = Tags;

    ghost reaches = { λ s x y. Around 3 3 s.junctions.of s.w s.h x y };

    ghost field = { λ s. tags s.w s.h (junctions_field s.junctions.of s.junctions.elements.now) };

    // Where the pixel itself has no flag but orientation, as many of a page, nothing around it is read, and where those beside it decide,
    // nothing farther away.
    fn record_at(&mut self, x: u32, y: u32) -> Tags {
        let e = self.junctions.at(x, y);
        if tag::bare(e) {
            return Tags {
                t0: 0,
                t1: 0,
                t2: 0,
                t3: 0,
            };
        }
        let near = self.cross(x, y, 1);
        if let Some(t) = trace_near(e, near) {
            return t;
        }
        trace_edges(e, near, self.cross(x, y, 2), self.cross(x, y, 3))
    }
}

// The tags of the rectangle t of a picture of w by h words, from its junctions, at the front of the bytes.
pub fn tags_rect(junctions: Records<Junctions>, w: u32, h: u32, t: Grid, bytes: &mut [u8])
    requires { (Feeds 3 3 junctions.of w h t) × (Held t (length bytes.old)) }
    ensures { bytes.new ≡ put 0 (rect_of of_tags t (tags w h (junctions_field junctions.entry.of junctions.entry.elements.now)))
        bytes.old }
{
    fill_rect(&mut Tagging { junctions, w, h }, t, bytes);
}
