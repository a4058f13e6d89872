// A session, once for both screens: a picture that is painted word by word or by lists of words, and its enlarged output, in which a
// refresh redraws the blocks that a paint made stale; one rectangle of the picture can be locked against paints. The calls are those of
// `calls`, `painted` and `refreshed`, at the number of the type's screen. `machine/specs/Calls.antt` says what each call leaves and
// answers, `specs/Answers.antt` here what stands for an answer's values beside a refusal. `Machine.antt` beside the first is the plain
// machine, `Demand3.antt` says what holds of every list of calls, and `promise/specs/Promise.antt` asks for that of both screens.
#![tactic(auto)]

ghost use Rattle.std.specs.Prelude.{◌≡◌};
ghost use Rattle.picture.specs.Answer.{refusal_of};
ghost use Rattle.machine.specs.Calls.{Opens, Paints, PaintLists, Refreshes, Shows, Locks};
ghost use Rattle.paints.specs.Paints.{listed};
ghost use Rattle.painted.specs.Answers.{painted_in, changed_in, count_in};
ghost use Rattle.refreshed.specs.Answers.{refreshed_in};
ghost use Rattle.session.specs.Answers.{opened_header, opened_stale, locked_header, shown_words};

use crate::screen::Screen;
use clarity::Clarity;
use gathered::gather;
use header::{Header, Rectangle};
use painted::Painted;
use paints::{Paint, few};
use picture::refusal::Refusal;
use refreshed::Refreshed;
use std::marker::PhantomData;

pub mod screen;

// A session is known by its header alone: the buffers are lent to each call. The type says which screen's calls it was opened for, and
// how many words a block has there. The default is what stands beside a refusal.
#[derive(Clone, Copy, Default)]
pub struct Session<S, const N: usize> {
    pub header: Header,
    pub screen: PhantomData<S>,
}

// What an opening answers: the session, and how many blocks are stale. The default is what stands beside a refusal.
#[derive(Clone, Copy, Default)]
pub struct Opened<S, const N: usize> {
    pub session: Session<S, N>,
    pub stale: u32,
}

impl<S, const N: usize> From<Header> for Session<S, N> {
    ghost from_gives = { λ header session. session.header ≡ header };

    fn from(header: Header) -> Self {
        Session {
            header,
            screen: PhantomData,
        }
    }
}

impl<S: Screen<N>, const N: usize> Session<S, N> {
    // A session on the picture: the output's words are made 0, every block stale, and nothing is locked.
    pub fn open(
        w: u32,
        h: u32,
        clarity: Clarity,
        picture: &[u32],
        output: &mut [u32],
        marks: &mut [u8],
    ) -> Result<Opened<S, N>, Refusal>
        ensures { Opens S.screen w h clarity picture.now output.old marks.old
            (record {
              output = output.new;
              marks = marks.new;
              refusal = refusal_of result;
              header = opened_header result;
              stale = opened_stale result;
            }) }
    {
        let opened = calls::open(S::SCALE, w, h, clarity, picture, output, marks)?;
        Ok(Opened {
            session: Session::from(opened.header),
            stale: opened.stale,
        })
    }

    // The word stored at its place, unless that is locked, and the blocks that may depend on it made stale.
    pub fn paint(
        self,
        picture: &mut [u32],
        marks: &mut [u8],
        paint: Paint,
    ) -> Result<Painted, Refusal>
        ensures { Paints S.screen self.header picture.old marks.old paint.column paint.row paint.word
            (record {
              picture = picture.new;
              marks = marks.new;
              refusal = refusal_of result;
              changed = changed_in result;
              stale = (painted_in result).stale;
            }) }
    {
        painted::paint(S::SCALE, self.header, picture, marks, paint)
    }

    // The paints of a list, all of them in its order or, where one would be refused at its turn, none. It answers the stale count.
    #[tactic(auto, using(machine::proofs::ListEnds::list_gathered))]
    pub fn paint_list(
        self,
        picture: &mut [u32],
        marks: &mut [u8],
        items: &[Paint],
    ) -> Result<u32, Refusal>
        ensures { PaintLists S.screen self.header picture.old marks.old items.now
            (record {
              picture = picture.new;
              marks = marks.new;
              refusal = refusal_of result;
              stale = count_in result;
            }) }
    {
        let n = items.len();
        let a = gather(items, few(n));
        self.paint_gathered(picture, marks, a, n)
    }

    // The same for callers without a slice: a has the first 64 of the list's n items. Where n is less, what stands behind them in a is not
    // looked at.
    pub fn paint_gathered(
        self,
        picture: &mut [u32],
        marks: &mut [u8],
        a: [Paint; 64],
        n: usize,
    ) -> Result<u32, Refusal>
        ensures { PaintLists S.screen self.header picture.old marks.old (listed n a)
            (record {
              picture = picture.new;
              marks = marks.new;
              refusal = refusal_of result;
              stale = count_in result;
            }) }
    {
        painted::paint_gathered(S::SCALE, self.header, picture, marks, a, n)
    }

    // The first n stale blocks in row order redrawn from the picture.
    pub fn refresh(
        self,
        picture: &[u32],
        output: &mut [u32],
        marks: &mut [u8],
        n: u32,
    ) -> Result<Refreshed, Refusal>
        ensures { Refreshes S.screen self.header picture.now output.old marks.old n
            (record {
              output = output.new;
              marks = marks.new;
              refusal = refusal_of result;
              drawn = (refreshed_in result).drawn;
              left = (refreshed_in result).left;
            }) }
    {
        refreshed::refresh(S::SCALE, self.header, picture, output, marks, n)
    }

    // The words of block (bx, by), row by row.
    pub fn show(self, output: &[u32], marks: &[u8], bx: u32, by: u32) -> Result<[u32; N], Refusal>
        ensures { Shows S.screen self.header output.now marks.now bx by
            (record { refusal = refusal_of result; words = shown_words N result }) }
    {
        let mut words = [0; N];
        calls::show(S::SCALE, self.header, output, marks, bx, by, &mut words)?;
        Ok(words)
    }

    // The session with another rectangle locked; one of width or height 0 locks nothing.
    pub fn lock(self, lock: Rectangle) -> Result<Session<S, N>, Refusal>
        ensures { Locks S.screen self.header lock (record { refusal = refusal_of result; header = locked_header result }) }
    {
        let header = calls::lock(S::SCALE, self.header, lock)?;
        Ok(Session::from(header))
    }
}
