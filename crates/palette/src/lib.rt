// The nearest entry of a palette, and a picture's words replaced by it; `specs/Claims.antt` states what is claimed of them.
#![tactic(auto)]

ghost use Rattle.std.specs.Prelude.{◌≡◌, ◌<◌, ◌≤◌, length};
ghost use Rattle.std.proofs.Props.{props};
ghost use Rattle.picture.specs.Fill.{put};
ghost use Rattle.palette.specs.Palette.{nearest_of, replaced_of};
ghost use Rattle.palette.specs.Kept.{Keeps};

use colour::nearness;

// The entry nearest to the word, top byte and all: no entry has a smaller N, and of equals it is the one at the lowest place. 0 where
// there is none.
pub fn nearest(palette: &[u32], word: u32) -> u32
    ensures { result ≡ nearest_of palette.now word }
{
    if palette.len() == 0 {
        return 0;
    }
    let mut best = palette[0];
    let mut least = nearness(best, word);
    let rest = &palette[1..];
    for &entry in rest {
        let n = nearness(entry, word);
        if n < least {
            least = n;
            best = entry;
        }
    }
    best
}

// How many words' entries are kept along the way: a page has few colours.
const KEPT: usize = 251;

// Where a word's entry is looked for first. By this prime the sixteen colours of EGA and those of HTML, all colours of four levels a
// channel, and greys four apart have places of their own.
fn first_place(word: u32) -> usize
    ensures { result < 251 }
{
    (word % 251) as usize
}

// Where it is looked for next, which is never the first place: an entry whose first place another word takes is moved there, so that two
// words of one first place are both kept.
fn second_place(word: u32) -> usize
    ensures { result < 251 }
{
    ((word % 251 + 1 + word / 251 % 250) % 251) as usize
}

// A word, and the palette's entry nearest to it.
#[derive(Clone, Copy)]
struct Slot {
    word: u32,
    entry: u32,
}

// A palette, and the entries that were found along the way.
#[derive(Drop)]
struct Kept<'a> {
    palette: &'a [u32],
    slots: [Slot; KEPT],
    ghost right: { Keeps palette.now slots } by { Prim.hlevel props },
}

impl Kept<'_> {
    // The entry nearest to the word: the one kept where it is kept, else found and kept.
    fn entry_of(&mut self, word: u32) -> u32
        ensures { (result ≡ nearest_of self.old.palette.now word) × (self.new.palette ≡ self.old.palette) }
    {
        let k = first_place(word);
        let first = self.slots[k];
        if first.word == word {
            return first.entry;
        }
        let second = self.slots[second_place(word)];
        if second.word == word {
            return second.entry;
        }
        let m = second_place(first.word);
        self.slots[m] = first;
        let entry = nearest(self.palette, word);
        self.slots[k] = Slot { word, entry };
        entry
    }
}

// The picture's first n words, each replaced by the nearest entry, at the front of `replaced`.
pub fn replace(picture: &[u32], n: usize, palette: &[u32], replaced: &mut [u32])
    requires { (n ≤ length picture.now) × (n ≤ length replaced.old) }
    ensures { replaced.new ≡ put 0 (replaced_of palette.now n picture.now) replaced.old }
{
    // At the start each slot keeps the entry of the word 0. Made here, since a function that answered them would copy them all on the stack.
    let entry = nearest(palette, 0);
    let mut kept = Kept {
        palette,
        slots: [Slot { word: 0, entry }; KEPT],
    };
    for i in 0..n {
        replaced[i] = kept.entry_of(picture[i]);
    }
}
