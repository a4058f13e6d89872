// Three-times sessions at the edges of docs/RULES.md: each line is what a call answered, or words of the picture after it.
#![tactic(auto)]

ghost use Rattle.picture.specs.Answer.{refusal_of};
ghost use Rattle.machine.specs.Calls.{PaintLists};
ghost use Rattle.painted.specs.Answers.{count_in};
ghost use Rattle.three.specs.Three.{screen3};

use clarity::Clarity;
use header::{Header, Rectangle};
use lines::lent::Lent;
use lines::line;
use lines::walk::{beside, walk};
use paints::Paint;
use picture::refusal::{self, Refusal};
use session::screen::Three;
use session3x::Session3x;
use std::io;

// P pixels, and O words of output. Where these are many, the buffers are named in place: `Lent::new` would have them copied on the stack.
type Lent3x<const P: usize, const O: usize> = Lent<Three, 9, P, O>;

// A lock call, and all of the header that it answered but the setting. It takes four numbers: calls with a literal of six lines are no
// plainer.
fn lock<const P: usize, const O: usize>(
    rt: &impl Print,
    lent: &mut Lent3x<P, O>,
    left: u32,
    top: u32,
    width: u32,
    height: u32,
) -> io::Result<()> {
    let answer = lent.lock(Rectangle {
        left,
        top,
        width,
        height,
    });
    let refusal = refusal::number(&answer);
    let Header { w, h, lock, .. } = answer.unwrap_or_default().header;
    let Rectangle {
        left,
        top,
        width,
        height,
    } = lock;
    println!(rt; "lock {refusal} {w} {h} {left} {top} {width} {height}")
}

// Locks at the borders of a picture of 4 by 3.
fn locks(rt: &impl Print) -> io::Result<()> {
    let mut lent: Lent3x<12, 108> = Lent::new([1; 12], 3);
    let _ = lent.open(4, 3, Clarity::Standard);
    lent.refresh(rt, 12)?;
    // It touches the right and the bottom border: refused inside, unchanged at an equal word, taken to its left and above it.
    lock(rt, &mut lent, 2, 1, 2, 2)?;
    lent.paint(rt, 2, 1, 5)?;
    lent.paint(rt, 3, 2, 5)?;
    lent.paint(rt, 3, 2, 1)?;
    lent.paint(rt, 1, 1, 5)?;
    lent.paint(rt, 2, 0, 5)?;
    // One column and one row past the picture, and a sum that 32 bits do not hold: refused, and the lock before stays.
    lock(rt, &mut lent, 3, 1, 2, 2)?;
    lock(rt, &mut lent, 2, 2, 1, 2)?;
    lock(rt, &mut lent, 4294967295, 0, 2, 1)?;
    lent.paint(rt, 3, 2, 5)?;
    // Of width 0: answered as given, and nothing is locked.
    lock(rt, &mut lent, 4294967295, 4294967295, 0, 7)?;
    lent.paint(rt, 3, 2, 5)
}

// Four paints, lent as a slice.
fn lend(
    session: Session3x,
    picture: &mut [u32],
    marks: &mut [u8],
    a: [Paint; 4],
) -> Result<u32, Refusal>
    ensures { PaintLists screen3 session.header picture.old marks.old a
        (record {
          picture = picture.new;
          marks = marks.new;
          refusal = refusal_of result;
          stale = count_in result;
        }) }
{
    session.paint_list(picture, marks, &a)
}

fn four(rt: &impl Print, lent: &mut Lent3x<12, 108>, a: [Paint; 4]) -> io::Result<()> {
    let answer = lend(lent.session, &mut lent.picture, &mut lent.marks, a);
    line(
        rt,
        b"list",
        refusal::number(&answer),
        answer.unwrap_or_default(),
        4,
    )
}

fn item(column: u32, row: u32, word: u32) -> Paint {
    Paint { column, row, word }
}

// One position three times, with the word that was there at the end: its blocks are stale.
fn repeated(rt: &impl Print, lent: &mut Lent3x<12, 108>) -> io::Result<()> {
    let mut a = [Paint::default(); 64];
    a[0] = item(0, 0, 5);
    a[1] = item(0, 0, 6);
    a[2] = item(0, 0, 1);
    lent.list(rt, a, 3)?;
    line(rt, b"words", lent.picture[0], lent.picture[6], 0)
}

// Through a slice: the last of four in the lock, and then the four taken.
fn slices(rt: &impl Print, lent: &mut Lent3x<12, 108>) -> io::Result<()> {
    for last in [5, 1] {
        let a = [
            item(0, 0, 8),
            item(1, 0, 9),
            item(0, 0, 10),
            item(3, 2, last),
        ];
        four(rt, lent, a)?;
        let [first, second, .., end] = lent.picture;
        line(rt, b"words", first, second, end)?;
    }
    Ok(())
}

// Lists of paints on a picture of 4 by 3 with its last four pixels locked: each line has the refusal, the stale count and the items.
fn lists(rt: &impl Print) -> io::Result<()> {
    let mut lent: Lent3x<12, 108> = Lent::new([1; 12], 3);
    let _ = lent.open(4, 3, Clarity::Standard);
    lock(rt, &mut lent, 2, 1, 2, 2)?;
    lent.refresh(rt, 12)?;
    let mut a = [Paint::default(); 64];
    lent.list(rt, a, 0)?;
    // Equal words, one of them in the lock; another word in the lock behind a word that changes, which is not kept.
    a[0] = item(0, 0, 1);
    a[1] = item(2, 1, 1);
    lent.list(rt, a, 2)?;
    a[0] = item(0, 0, 5);
    a[2] = item(2, 1, 5);
    lent.list(rt, a, 3)?;
    line(rt, b"words", lent.picture[0], lent.picture[6], 0)?;
    // A position outside behind it, and before it.
    a[2] = item(4, 0, 1);
    lent.list(rt, a, 3)?;
    a[0] = item(0, 3, 1);
    lent.list(rt, a, 3)?;
    // 64 items are looked at, and of 65 none.
    lent.list(rt, a, 64)?;
    lent.list(rt, a, 65)?;
    repeated(rt, &mut lent)?;
    slices(rt, &mut lent)
}

// A session on a picture of 2 by 2 whose header no call answered.
fn made<const O: usize>(mark: u8, lock: Rectangle, clarity: Clarity) -> Lent3x<4, O> {
    let mut lent: Lent3x<4, O> = Lent::new([0; 4], mark);
    lent.session = Session3x::from(Header {
        w: 2,
        h: 2,
        lock,
        clarity,
    });
    lent
}

// A header that no call answered: its lock reaches past the picture.
fn wild(rt: &impl Print) -> io::Result<()> {
    let past = Rectangle {
        left: 1,
        top: 0,
        width: 2,
        height: 1,
    };
    let mut lent: Lent3x<4, 36> = made(0, past, Clarity::Standard);
    lent.refresh(rt, 4)?;
    lent.show(rt, 0, 0)?;
    lock(rt, &mut lent, 0, 0, 0, 0)
}

// A header that no call answered: its setting is not lawful. That comes after a lock past the picture and a short buffer, and before the
// items of a list, a position outside and a stale block.
fn unlawful(rt: &impl Print) -> io::Result<()> {
    let mut lent: Lent3x<4, 36> = made(1, Rectangle::default(), Clarity::Gated(0.0));
    let mut short: Lent3x<4, 35> = made(1, Rectangle::default(), Clarity::Gated(0.0));
    lent.paint(rt, 2, 0, 1)?;
    lent.list(rt, [Paint::default(); 64], 65)?;
    lent.refresh(rt, 4)?;
    short.refresh(rt, 4)?;
    lent.show(rt, 2, 0)?;
    lock(rt, &mut lent, 0, 0, 0, 0)?;
    lock(rt, &mut lent, 1, 0, 2, 1)?;
    line(
        rt,
        b"kept",
        lent.picture[0],
        lent.output[0],
        short.output[0],
    )
}

// A session opened at a setting, with a word of its output, which a refusal leaves.
fn opened(rt: &impl Print, clarity: Clarity) -> io::Result<()> {
    let mut lent: Lent3x<1, 9> = Lent::new([0; 1], 3);
    let answer = lent.open(1, 1, clarity);
    let stale = answer.unwrap_or_default().stale;
    line(rt, b"open", refusal::number(&answer), lent.output[0], stale)
}

// Both zeros, the smallest subnormal, 1.0 and the single above it, the infinities and what is not a number.
fn thresholds(rt: &impl Print) -> io::Result<()> {
    let zero = 0.0f32;
    let settings = [
        Clarity::Threshold(0.0),
        Clarity::Threshold(-0.0),
        Clarity::Gated(-0.0),
        Clarity::Threshold(1e-45),
        Clarity::Gated(1e-45),
        Clarity::Threshold(1.0),
        Clarity::Gated(1.0),
        Clarity::Threshold(1.0000001),
        Clarity::Threshold(-0.5),
        Clarity::Threshold(1.0 / zero),
        Clarity::Threshold(-1.0 / zero),
        Clarity::Threshold(zero / zero),
        Clarity::Gated(zero / zero),
        Clarity::Standard,
    ];
    for clarity in settings {
        opened(rt, clarity)?;
    }
    Ok(())
}

// Two greys, drawn at a setting after a lock call, which keeps it: three words of a block that differ from setting to setting.
fn drawn(rt: &impl Print, clarity: Clarity) -> io::Result<()> {
    let mut picture = [0; 16];
    for at in [1, 7, 14, 15] {
        picture[at] = 0x404040;
    }
    picture[10] = 0x606060;
    let mut lent: Lent3x<16, 144> = Lent::new(picture, 3);
    let _ = lent.open(4, 4, clarity);
    lock(rt, &mut lent, 0, 0, 1, 1)?;
    lent.refresh(rt, 16)?;
    let words = lent
        .session
        .show(&lent.output, &lent.marks, 2, 2)
        .unwrap_or_default();
    line(rt, b"block", words[2], words[3], words[6])
}

// A side past the limit.
fn too_wide(rt: &impl Print) -> io::Result<()> {
    let mut lent: Lent3x<4, 36> = Lent::new([0; 4], 3);
    lent.opened(rt, 2049, 1, Clarity::Standard)
}

// A picture of 32 by 32, on which a changing paint makes a cross of blocks stale.
fn crosses(rt: &impl Print) -> io::Result<()> {
    let mut lent: Lent3x<1024, 9216> = Lent {
        session: Session3x::default(),
        picture: [0; 1024],
        output: [7; 9216],
        marks: [0; 1024],
    };
    walk(rt, &mut lent, 100)?;
    beside(rt, &mut lent, 31, 31)
}

fn main(rt: HostRuntime) -> io::Result<()> {
    crosses(&rt)?;
    too_wide(&rt)?;
    locks(&rt)?;
    lists(&rt)?;
    wild(&rt)?;
    unlawful(&rt)?;
    thresholds(&rt)?;
    let settings = [
        Clarity::Standard,
        Clarity::Threshold(0.5),
        Clarity::Gated(0.5),
        Clarity::Threshold(0.25),
        Clarity::Threshold(1.0),
    ];
    for clarity in settings {
        drawn(&rt, clarity)?;
    }
    Ok(())
}
