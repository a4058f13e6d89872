// A picture with what it is drawn by.
ghost use Rattle.std.specs.Prelude.{◌≤◌};
ghost use Rattle.screens.specs.Screens.{screen_of};

use clarity::Clarity;
use picture::whole::Picture;

// What blocks are drawn from: a picture of sides within the screen's limit, a setting of clarity, and the screen's number.
#[derive(Clone, Copy)]
pub struct Frame<'a> {
    pub picture: Picture<'a>,
    pub clarity: Clarity,
    pub scale: u32,
    pub ghost wide: { picture.w ≤ (screen_of scale).side },
    pub ghost high: { picture.h ≤ (screen_of scale).side },
}
