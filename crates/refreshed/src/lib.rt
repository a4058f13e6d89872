// The refresh of a session, once for both screens: it takes the scale and the header, as the calls of `calls` do. `specs/Answers.antt` says
// what stands for an answer's values beside a refusal.
#![tactic(auto)]

ghost use Rattle.picture.specs.Answer.{refusal_of};
ghost use Rattle.machine.specs.Calls.{Refreshes};
ghost use Rattle.screens.specs.Screens.{screen_of};
ghost use Rattle.refreshed.specs.Answers.{refreshed_in};

use draw::draw_first;
use header::Header;
use picture::refusal::Refusal;
use picture::whole::Picture;
use refusals::check_all;
use screens::frame::Frame;
use screens::{side, words};

// The default is what stands beside a refusal.
#[derive(Clone, Copy, Default)]
pub struct Refreshed {
    pub drawn: u32,
    pub left: u32,
}

// The first n stale blocks in row order redrawn from the picture.
pub fn refresh(
    scale: u32,
    header: Header,
    picture: &[u32],
    output: &mut [u32],
    marks: &mut [u8],
    n: u32,
) -> Result<Refreshed, Refusal>
    ensures { Refreshes (screen_of scale) header picture.now output.old marks.old n
        (record {
          output = output.new;
          marks = marks.new;
          refusal = refusal_of result;
          drawn = (refreshed_in result).drawn;
          left = (refreshed_in result).left;
        }) }
{
    let (p, o, m) = (picture.len(), output.len(), marks.len());
    check_all(side(scale), words(scale), header, p, o, m)?;
    let picture = Picture {
        words: picture,
        w: header.w,
        h: header.h,
    };
    let frame = Frame {
        picture,
        clarity: header.clarity,
        scale,
    };
    let stale = draw_first(frame, output, marks, n);
    let drawn = stale.min(n);
    let left = stale - drawn;
    Ok(Refreshed { drawn, left })
}
