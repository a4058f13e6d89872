// A paint of a list, of which one call takes up to 64. `specs/Paints.antt` says what an array with the first of them holds; `gathered`
// walks a list into it.
#![tactic(auto)]

ghost use Rattle.std.specs.Prelude.{◌≡◌, ◌≤◌};
ghost use Rattle.paints.specs.Paints.{blanks, few_of};

pub mod item;

// One paint of a list: the word that is to stand at (column, row). The default is three 0s.
#[derive(Clone, Copy, Default)]
pub struct Paint {
    pub column: u32,
    pub row: u32,
    pub word: u32,
}

// The most items that a list may have.
pub const LIMIT: usize = 64;

// 64 paints of zeros.
#[tactic(auto, unfolding(crate::specs::Paints::blanks))]
pub fn none() -> [Paint; 64]
    ensures { result ≡ blanks }
{
    [Paint::default(); 64]
}

// How many items of n are gathered: no more than the limit.
pub fn few(n: usize) -> usize
    ensures { (result ≡ few_of n) × ((result ≤ n) × (result ≤ 64)) }
{
    n.min(LIMIT)
}
