// The block of one pixel stored by its tags in an output whose rows have `ow` words, where nine copies of the pixel stand: the word that a
// tag names is stored over its copy.
#![tactic(auto)]

ghost use Rattle.std.specs.Prelude.{◌≡◌, ◌+◌, ◌*◌, ◌<◌, ◌≤◌, Option, length};
ghost use Rattle.block.specs.Drawn.{put_block, Plain};
ghost use Rattle.tag_words.specs.Pixel.{named, block, corner_of, mid_of, stored};

use picture::reader::Reader;
use tag::Tags;

// The pixel (x, y) of a picture.
#[derive(Clone, Copy)]
pub struct Pixel<'a> {
    pub picture: Reader<'a>,
    pub x: u32,
    pub y: u32,
}

impl<'a> Pixel<'a> {
    // The word that a tag names, of those round the pixel.
    fn named(self, tag: u8) -> u32
        ensures { result ≡ named self.entry tag }
    {
        let o = tag::neighbor_offset(tag);
        self.picture.get(self.x, self.y, o.dx, o.dy)
    }
}

// The corner tag of a tag number; none where the number is 0, and then the copy of the pixel is its word.
fn corner(t: u8) -> Option<u8>
    ensures { result ≡ corner_of t }
{
    if t == 0 {
        return None;
    }
    Some(t % 9)
}

// And its mid-edge tag, which below 9 is 0.
fn mid(t: u8) -> Option<u8>
    ensures { result ≡ mid_of t }
{
    if t < 9 {
        return None;
    }
    Some(t / 9 % 9)
}

// The word that a tag names, if there is one, stored over the pixel's copy.
fn put_named(pixel: Pixel, tag: Option<u8>, out: &mut [u32], at: usize)
    requires { at < length out.old }
    ensures { out.new ≡ stored pixel.entry tag at out.old }
{
    if let Some(tag) = tag {
        out[at] = pixel.named(tag);
    }
}

// The block of a pixel by its tags, its first word at `at`, where nine copies of the pixel stand. The middle one stays. A
// tag is taken and stored before the next one is, so that it is tested once.
pub fn put_block(pixel: Pixel, t: Tags, out: &mut [u32], ow: usize, at: usize)
    requires { (at + 2 * ow + 3 ≤ length out.old) × ((3 ≤ ow) × Plain ow at (named pixel 0) out.old) }
    ensures { out.new ≡ put_block ow at (block pixel.entry t) out.old }
{
    put_named(pixel, corner(t.t0), out, at);
    put_named(pixel, mid(t.t0), out, at + 1);
    put_named(pixel, corner(t.t1), out, at + 2);
    let middle = at + ow;
    put_named(pixel, mid(t.t3), out, middle);
    put_named(pixel, mid(t.t1), out, middle + 2);
    let bottom = at + 2 * ow;
    put_named(pixel, corner(t.t3), out, bottom);
    put_named(pixel, mid(t.t2), out, bottom + 1);
    put_named(pixel, corner(t.t2), out, bottom + 2);
}
