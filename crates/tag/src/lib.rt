// The tags of a pixel and the offsets that they name, section 5: `specs/Tag.antt` is the source. The crate `trace` finds the tags with
// the flags of the four corners side by side in a word, so that a level is tested for all of them at once: `specs/Words.antt` is what
// it computes, and `proofs/Same.antt` shows that the two are the same tags.
#![tactic(auto)]

ghost use Rattle.std.specs.Prelude.{◌≡◌};
ghost use Rattle.tag.specs.Tag.{offset_of};
ghost use Rattle.tag.specs.Words.{bare_of};

use junction::Junctions;
use lanes::word;

// The source's tags, for the corners 0 to 3 from the lowest byte on: LEFT is 1, RIGHT 3, UP 5, DOWN 7, and the second pixel in the
// same direction is one more. A corner's own directions, and the others:
pub const NEAR_H: u32 = 0x01030301;

pub const NEAR_V: u32 = 0x07070505;

pub const FAR_H: u32 = 0x03010103;

pub const FAR_V: u32 = 0x05050707;
// For the sides top, right, bottom, left: away from the pixel; towards the source's [i][0] and [i][1]; towards the corner of the
// same number and the one after it.
pub const OUTWARD: u32 = 0x01070305;

pub const FIRST_END: u32 = 0x05010501;

pub const SECOND_END: u32 = 0x07030703;

pub const OWN: u32 = 0x07030501;

pub const AFTER: u32 = 0x05010703;

// Section 5's tag numbers. No array, since definitions and theorems name the four.
#[derive(Clone, Copy)]
pub struct Tags {
    pub t0: u8,
    pub t1: u8,
    pub t2: u8,
    pub t3: u8,
}

// The junction numbers at one distance, for each corner those of the pixel on the corner's own side (left for the corners 0 and 3,
// above for 0 and 1) and on the other side.
#[derive(Clone, Copy)]
pub struct Neighbors {
    pub hs: u32,
    pub ho: u32,
    pub vs: u32,
    pub vo: u32,
}

// What the levels 4 and 6 give to the corner tags: the flags of the first two branches, and the tags of the last four.
#[derive(Clone, Copy, Default)]
pub struct FarCorners {
    pub first: u32,
    pub second: u32,
    pub tag: u32,
}

// What the level 5 gives to the mid-edge tags: the flags of the first branch, the flags and the tags of its own two.
#[derive(Clone, Copy, Default)]
pub struct FarMids {
    pub first: u32,
    pub any: u32,
    pub tag: u32,
}

// What the pixels two and three away give to the tags: nothing, the default, where no run of four passes.
#[derive(Clone, Copy, Default)]
pub struct Far {
    pub corners: FarCorners,
    pub mids: FarMids,
}

// What lies to the left, to the right, above and below at one distance.
#[derive(Clone, Copy)]
pub struct Cross<T> {
    pub left: T,
    pub right: T,
    pub up: T,
    pub down: T,
}

// Whether a pixel has no flag but orientation: its tags are 0 whatever lies around it. Most pixels of a page are so.
pub fn bare(e: Junctions) -> bool
    ensures { result ≡ bare_of e }
{
    word(e) & 0x07070707 == 0
}

// A signed pair.
#[derive(Clone, Copy)]
pub struct Offset {
    pub dx: i32,
    pub dy: i32,
}

// The nine offsets, by tag.
static OFFSETS: [Offset; 9] = [
    Offset { dx: 0, dy: 0 },
    Offset { dx: -1, dy: 0 },
    Offset { dx: -2, dy: 0 },
    Offset { dx: 1, dy: 0 },
    Offset { dx: 2, dy: 0 },
    Offset { dx: 0, dy: -1 },
    Offset { dx: 0, dy: -2 },
    Offset { dx: 0, dy: 1 },
    Offset { dx: 0, dy: 2 },
];

// The offset that a tag names; any other number names the pixel itself.
pub fn neighbor_offset(tag: u8) -> Offset
    ensures { result ≡ offset_of tag }
{
    match OFFSETS.get(tag as usize) {
        Some(offset) => *offset,
        None => OFFSETS[0],
    }
}
