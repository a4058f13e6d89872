// The three-times session by its name: the calls are those of `session`, at the three-times screen, and their contracts speak of `screen3`.
// `side` holds the name to that screen.
#![tactic(auto)]

ghost use Rattle.std.specs.Prelude.{◌≡◌};
ghost use Rattle.three.specs.Three.{screen3};

use session::Session;
use session::screen::Three;

pub type Session3x = Session<Three, 9>;

// The limit of w and of h of the session that the name stands for: that of the three-times screen.
pub fn side() -> u32
    ensures { result ≡ screen3.side }
{
    Session3x::side()
}
