// The calls on a picture of 32 by 32 that are made on both screens.
use crate::lent::Lent;
use clarity::Clarity;
use session::screen::Screen;
use std::io;

// Nothing is drawn, and then all; paints away from borders and at two corners, with refreshes of `slice` blocks and of all.
pub fn walk<S: Screen<N>, const N: usize, const O: usize>(
    rt: &impl Print,
    lent: &mut Lent<S, N, 1024, O>,
    slice: u32,
) -> io::Result<()> {
    lent.opened(rt, 32, 32, Clarity::Standard)?;
    lent.show(rt, 0, 0)?;
    lent.refresh(rt, 0)?;
    lent.refresh(rt, 4294967295)?;
    lent.paint(rt, 10, 10, 1)?;
    lent.refresh(rt, slice)?;
    lent.refresh(rt, slice)?;
    lent.paint(rt, 0, 0, 1)?;
    lent.refresh(rt, 1024)?;
    lent.paint(rt, 31, 31, 1)?;
    lent.refresh(rt, 1024)
}

// On that picture, drawn: a paint outside, one of an equal word, and one of a word that differs in its top byte alone; shows of a block
// that it made stale, of (bx, by) beside those, and of one outside.
pub fn beside<S: Screen<N>, const N: usize, const O: usize>(
    rt: &impl Print,
    lent: &mut Lent<S, N, 1024, O>,
    bx: u32,
    by: u32,
) -> io::Result<()> {
    lent.paint(rt, 32, 0, 1)?;
    lent.paint(rt, 10, 10, 1)?;
    lent.paint(rt, 10, 10, 16777217)?;
    lent.show(rt, 10, 10)?;
    lent.show(rt, bx, by)?;
    lent.show(rt, 0, 32)
}
