// Why a call of a session is refused: the first condition that holds, or nothing. What a paint's place, word and list are refused for is in
// `paint_refusals`. side is the screen's limit of a side, words how many words a block has; header is the one that the call is lent, or is
// to answer; p, o and m are the lengths of the picture, the output and the marks. No screen has a longer side than 2,048, nor a block of
// more than 81 words, as many as nine-times makes of a pixel: so no product wraps. They come as numbers, as the definitions take them:
// whose they are is known in `screens` alone, which stands above.
#![tactic(auto)]

ghost use Rattle.std.specs.Prelude.{◌≡◌, ◌≤◌};
ghost use Rattle.picture.specs.Refusal.{none};
ghost use Rattle.picture.specs.Answer.{refusal_of};
ghost use Rattle.machine.specs.Calls.{side_long, refusal_header, refusal_clarity, refusal_all, refusal_lent};
ghost use Rattle.machine.specs.Calls.{refusal_show, refusal_lock};

use clarity::lawful;
use header::{Header, Rectangle};
use picture::refusal::Refusal;

// A side past its limit.
fn side_long(side: u32, w: u32, h: u32) -> bool
    ensures { result ≡ side_long side w h }
{
    (side < w) | (side < h)
}

// Of every call, by its header.
fn check_header(side: u32, header: Header) -> Result<(), Refusal>
    ensures { refusal_of result ≡ refusal_header side header none }
{
    if side_long(side, header.w, header.h) {
        return Err(Refusal::Side);
    }
    if header.lock.past(header.w, header.h) {
        return Err(Refusal::Lock);
    }
    Ok(())
}

// Of every call, by its header's setting.
fn check_clarity(header: Header) -> Result<(), Refusal>
    ensures { refusal_of result ≡ refusal_clarity header none }
{
    if !lawful(header.clarity) {
        return Err(Refusal::Clarity);
    }
    Ok(())
}

// Of a call that is lent all three buffers.
pub fn check_all(
    side: u32,
    words: usize,
    header: Header,
    p: usize,
    o: usize,
    m: usize,
) -> Result<(), Refusal>
    requires { (side ≤ 2048) × (words ≤ 81) }
    ensures { refusal_of result ≡ refusal_all side words header p o m }
{
    check_header(side, header)?;
    let n = header.blocks();
    if p < n {
        return Err(Refusal::Picture);
    }
    if o < words * n {
        return Err(Refusal::Output);
    }
    if m < n {
        return Err(Refusal::Scratch);
    }
    check_clarity(header)
}

// Of a call that is lent picture and marks, and no output, by the header, their lengths and the setting.
pub fn check_lent(side: u32, header: Header, p: usize, m: usize) -> Result<(), Refusal>
    requires { side ≤ 2048 }
    ensures { refusal_of result ≡ refusal_lent side header p m none }
{
    check_header(side, header)?;
    let n = header.blocks();
    if p < n {
        return Err(Refusal::Picture);
    }
    if m < n {
        return Err(Refusal::Scratch);
    }
    check_clarity(header)
}

// Of a show of block (bx, by), which looks at the block's mark too.
pub fn check_show(
    side: u32,
    words: usize,
    header: Header,
    o: usize,
    marks: &[u8],
    bx: u32,
    by: u32,
) -> Result<(), Refusal>
    requires { (side ≤ 2048) × (words ≤ 81) }
    ensures { refusal_of result ≡ refusal_show side words header o marks.now bx by }
{
    check_header(side, header)?;
    let n = header.blocks();
    if o < words * n {
        return Err(Refusal::Output);
    }
    let m = marks.len();
    if m < n {
        return Err(Refusal::Scratch);
    }
    check_clarity(header)?;
    if !header.has(bx, by) {
        return Err(Refusal::Outside);
    }
    if marks[header.place(bx, by)] != 0 {
        return Err(Refusal::Stale);
    }
    Ok(())
}

// Of a lock of a rectangle, which is lent the header alone.
pub fn check_lock(side: u32, header: Header, lock: Rectangle) -> Result<(), Refusal>
    ensures { refusal_of result ≡ refusal_lock side header lock }
{
    check_header(side, header)?;
    if lock.past(header.w, header.h) {
        return Err(Refusal::Lock);
    }
    check_clarity(header)
}
