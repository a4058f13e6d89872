// Nine-times sessions at the edges of docs/RULES.md: each line is what a call answered, or words of the picture after it.
#![tactic(auto)]

use clarity::Clarity;
use header::{Header, Rectangle};
use lines::lent::Lent;
use lines::walk::{beside, walk};
use lines::{line, told};
use paints::Paint;
use session::screen::{Nine, Three};
use session9x::Session9x;
use std::io;

// P pixels, and O words of output. Where these are many, the buffers are named in place: `Lent::new` would have them copied on the stack.
type Lent9x<const P: usize, const O: usize> = Lent<Nine, 81, P, O>;

// A picture of 32 by 32, on which a changing paint makes a box of blocks stale.
fn boxes(rt: &impl Print) -> io::Result<()> {
    let mut lent: Lent9x<1024, 82944> = Lent {
        session: Session9x::default(),
        picture: [0; 1024],
        output: [7; 82944],
        marks: [0; 1024],
    };
    walk(rt, &mut lent, 200)?;
    beside(rt, &mut lent, 19, 10)
}

// A side at the limit is taken, and one past it is refused before any buffer is looked at.
fn sides(rt: &impl Print) -> io::Result<()> {
    let mut lent: Lent9x<682, 55242> = Lent {
        session: Session9x::default(),
        picture: [5; 682],
        output: [7; 55242],
        marks: [3; 682],
    };
    lent.opened(rt, 682, 1, Clarity::Standard)?;
    lent.opened(rt, 683, 1, Clarity::Standard)?;
    lent.opened(rt, 1, 683, Clarity::Standard)
}

// A lock call: the header's width and the lock's first column.
fn lock(rt: &impl Print, lent: &mut Lent9x<12, 972>, lock: Rectangle) -> io::Result<()> {
    let answer = lent.lock(lock);
    told(
        rt,
        b"lock",
        answer.map(|s| (s.header.w, s.header.lock.left)),
    )
}

// A lock and lists of paints on a picture of 4 by 3: 64 items are looked at, and of 65 none.
fn lists(rt: &impl Print) -> io::Result<()> {
    let mut lent: Lent9x<12, 972> = Lent::new([1; 12], 3);
    let _ = lent.open(4, 3, Clarity::Standard);
    let corner = Rectangle {
        left: 2,
        top: 1,
        width: 2,
        height: 2,
    };
    lock(rt, &mut lent, corner)?;
    lent.refresh(rt, 12)?;
    lent.paint(rt, 3, 2, 5)?;
    let mut a = [Paint::default(); 64];
    a[0] = Paint {
        column: 0,
        row: 0,
        word: 5,
    };
    a[1] = Paint {
        column: 2,
        row: 1,
        word: 5,
    };
    for n in [2, 1, 65] {
        lent.list(rt, a, n)?;
    }
    line(rt, b"words", lent.picture[0], lent.picture[6], 0)?;
    lock(rt, &mut lent, Rectangle { left: 3, ..corner })
}

// A header of the three-times session, lent to the nine-times one: its output is too short; one that is long enough is drawn as any other.
fn other(rt: &impl Print) -> io::Result<()> {
    let mut three: Lent<Three, 9, 4, 36> = Lent::new([9; 4], 3);
    let _ = three.open(2, 2, Clarity::Standard);
    let mut short: Lent9x<4, 36> = Lent::new(three.picture, 1);
    short.session = Session9x::from(three.session.header);
    short.refresh(rt, 4)?;
    let mut lent: Lent9x<4, 324> = Lent::new(three.picture, 1);
    lent.session = short.session;
    lent.refresh(rt, 4)?;
    lent.show(rt, 1, 1)
}

// Headers that no call answered: sides past the limit that the other screen has, and a setting that is not lawful.
fn wild(rt: &impl Print) -> io::Result<()> {
    let lock = Rectangle::default();
    let mut lent: Lent9x<4, 324> = Lent::new([0; 4], 0);
    lent.session = Session9x::from(Header {
        w: 2048,
        h: 0,
        lock,
        clarity: Clarity::Standard,
    });
    lent.refresh(rt, 4)?;
    lent.session = Session9x::from(Header {
        w: 2,
        h: 2,
        lock,
        clarity: Clarity::Gated(0.0),
    });
    lent.refresh(rt, 4)?;
    lent.show(rt, 0, 0)?;
    line(rt, b"kept", lent.output[0], lent.output[323], 0)
}

fn main(rt: HostRuntime) -> io::Result<()> {
    boxes(&rt)?;
    sides(&rt)?;
    lists(&rt)?;
    other(&rt)?;
    wild(&rt)
}
