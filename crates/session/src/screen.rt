// What differs from screen to screen: its number, how many words a block has, and the limit of the sides. A screen is a type, so that a
// session's type names it.
ghost use Rattle.std.specs.Prelude.{◌≡◌, ℕ, refl};
ghost use Rattle.machine.specs.Screen.{Screen as AnyScreen, block_words};
ghost use Rattle.nine.specs.Nine.{screen9};
ghost use Rattle.screens.specs.Screens.{screen_of};
ghost use Rattle.three.specs.Three.{screen3};

use crate::Session;
use screens::{NINE, SIDE_NINE, SIDE_THREE, THREE};

// A screen with N words to a block: `screen` is its definition, and SCALE the number that the calls take for it.
pub trait Screen<const N: usize>: Copy + Default {
    ghost screen: { AnyScreen };

    ghost SCALE: { ℕ };

    const SCALE: u32;

    ghost numbered: { screen_of SCALE ≡ screen };

    ghost sized: { N ≡ block_words screen };
}

// The three-times screen.
#[derive(Clone, Copy, Default)]
pub struct Three;

impl Screen<9> for Three {
    ghost screen = { screen3 };

    ghost SCALE = { 3 };

    const SCALE: u32 = THREE;

    ghost numbered = { refl };

    ghost sized = { refl };
}

// Written for each screen, and not once: a generic constant SIDE and a function side are refused by the check, since only the case of
// their letters differs, and neither name may change.
impl Session<Three, 9> {
    // The limit of w and of h.
    pub const SIDE: u32 = SIDE_THREE;

    // The same, as a call that promises it.
    pub fn side() -> u32
        ensures { result ≡ screen3.side }
    {
        Self::SIDE
    }
}

// The nine-times screen.
#[derive(Clone, Copy, Default)]
pub struct Nine;

impl Screen<81> for Nine {
    ghost screen = { screen9 };

    ghost SCALE = { 9 };

    const SCALE: u32 = NINE;

    ghost numbered = { refl };

    ghost sized = { refl };
}

impl Session<Nine, 81> {
    // The limit of w and of h.
    pub const SIDE: u32 = SIDE_NINE;

    // The same, as a call that promises it.
    pub fn side() -> u32
        ensures { result ≡ screen9.side }
    {
        Self::SIDE
    }
}
