// The opening, the lock and the show of a session, once for both screens: each takes the scale, the number of its screen, and the header in
// place of a session. The other calls are in `painted` and `refreshed`. `machine/specs/Calls.antt` says what each leaves and answers, and
// `specs/Answers.antt` what stands for an answer's values beside a refusal. A session type hands its own number in, and wraps the header
// that an opening and a lock answer.
#![tactic(auto)]

ghost use Rattle.std.specs.Prelude.{◌≡◌, replicate};
ghost use Rattle.picture.specs.Answer.{refusal_of};
ghost use Rattle.machine.specs.Calls.{Opens, Shows, Locks};
ghost use Rattle.machine.specs.Screen.{block_words};
ghost use Rattle.screens.specs.Screens.{screen_of};
ghost use Rattle.calls.specs.Answers.{opened_in, header_in};

use clarity::Clarity;
use header::{Header, Rectangle};
use marks::mark_run;
use picture::refusal::Refusal;
use refusals::{check_all, check_lock, check_show};
use screens::{read_block, side, words};

// The default is what stands beside a refusal.
#[derive(Clone, Copy, Default)]
pub struct Opened {
    pub header: Header,
    pub stale: u32,
}

// A session on the picture: the output's words are made 0, every block stale, and nothing is locked.
pub fn open(
    scale: u32,
    w: u32,
    h: u32,
    clarity: Clarity,
    picture: &[u32],
    output: &mut [u32],
    marks: &mut [u8],
) -> Result<Opened, Refusal>
    ensures { Opens (screen_of scale) w h clarity picture.now output.old marks.old
        (record {
          output = output.new;
          marks = marks.new;
          refusal = refusal_of result;
          header = (opened_in result).header;
          stale = (opened_in result).stale;
        }) }
{
    let header = Header::fresh(w, h, clarity);
    let each = words(scale);
    let (p, o, m) = (picture.len(), output.len(), marks.len());
    check_all(side(scale), each, header, p, o, m)?;
    let n = header.blocks();
    output[..each * n].fill(0);
    mark_run(marks, 0, n);
    Ok(Opened {
        header,
        stale: w * h,
    })
}

// The words of block (bx, by), into as many zeros, which a refusal leaves as they are.
pub fn show(
    scale: u32,
    header: Header,
    output: &[u32],
    marks: &[u8],
    bx: u32,
    by: u32,
    block: &mut [u32],
) -> Result<(), Refusal>
    requires { block.old ≡ replicate (block_words (screen_of scale)) 0 }
    ensures { Shows (screen_of scale) header output.now marks.now bx by
        (record { refusal = refusal_of result; words = block.new }) }
{
    let o = output.len();
    check_show(side(scale), words(scale), header, o, marks, bx, by)?;
    read_block(scale, output, header.w, header.h, bx, by, block);
    Ok(())
}

// The header with another rectangle locked; one of width or height 0 locks nothing.
pub fn lock(scale: u32, header: Header, lock: Rectangle) -> Result<Header, Refusal>
    ensures { Locks (screen_of scale) header lock (record { refusal = refusal_of result; header = header_in result }) }
{
    check_lock(side(scale), header, lock)?;
    Ok(header.with_lock(lock))
}
