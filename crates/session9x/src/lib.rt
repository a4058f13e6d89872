// The nine-times session by its name: as the three-times one, with a block of 9 by 9 words for each pixel and sides of at most 682. The
// calls are those of `session`, at the nine-times screen, and their contracts speak of `screen9`. `side` holds the name to that screen.
#![tactic(auto)]

ghost use Rattle.std.specs.Prelude.{◌≡◌};
ghost use Rattle.nine.specs.Nine.{screen9};

use session::Session;
use session::screen::Nine;

pub type Session9x = Session<Nine, 81>;

// The limit of w and of h of the session that the name stands for: that of the nine-times screen.
pub fn side() -> u32
    ensures { result ≡ screen9.side }
{
    Session9x::side()
}
