// Why a paint or a list of paints is refused: the first condition that holds, or nothing. What every call refuses comes first, then the
// list's length, then the items' places and the lock. side is the screen's limit of a side, m the length of the marks.
#![tactic(auto)]

ghost use Rattle.std.specs.Prelude.{◌≡◌, ◌*◌, ◌≤◌, length, take};
ghost use Rattle.picture.specs.Answer.{refusal_of};
ghost use Rattle.machine.specs.Calls.{refusal_word, refusal_paint, refusal_list};
ghost use Rattle.machine.specs.Items.{refusal_items};

use header::Header;
use paints::{LIMIT, Paint};
use picture::refusal::Refusal;
use refusals::check_lent;

// Of one word at its place. A word that is there already is not refused, be it locked or not.
fn check_word(header: Header, picture: &[u32], paint: Paint) -> Result<(), Refusal>
    requires { (header.w * header.h ≤ 4194304) × (header.w * header.h ≤ length picture.now) }
    ensures { refusal_of result ≡ refusal_word header picture.now paint.column paint.row paint.word }
{
    if !header.has(paint.column, paint.row) {
        return Err(Refusal::Outside);
    }
    let old = picture[header.place(paint.column, paint.row)];
    if (paint.word != old) & header.lock.locked(paint.column, paint.row) {
        return Err(Refusal::Locked);
    }
    Ok(())
}

// Of a paint.
pub fn check_paint(
    side: u32,
    header: Header,
    picture: &[u32],
    m: usize,
    paint: Paint,
) -> Result<(), Refusal>
    requires { side ≤ 2048 }
    ensures { refusal_of result ≡ refusal_paint side header picture.now m paint.column paint.row paint.word }
{
    check_lent(side, header, picture.len(), m)?;
    check_word(header, picture, paint)
}

// Of some items, by the picture as it stands: the first that is refused.
fn check_items(header: Header, picture: &[u32], items: &[Paint]) -> Result<(), Refusal>
    requires { (header.w * header.h ≤ 4194304) × (header.w * header.h ≤ length picture.now) }
    ensures { refusal_of result ≡ refusal_items header picture.now items.now }
{
    for item in items {
        check_word(header, picture, *item)?;
    }
    Ok(())
}

// Of a list of n items, of which a has the first.
pub fn check_list(
    side: u32,
    header: Header,
    picture: &[u32],
    m: usize,
    a: &[Paint; 64],
    n: usize,
) -> Result<(), Refusal>
    requires { side ≤ 2048 }
    ensures { refusal_of result ≡ refusal_list side header (length picture.now) m n
        (refusal_items header picture.now (take n a.now)) }
{
    check_lent(side, header, picture.len(), m)?;
    if LIMIT < n {
        return Err(Refusal::Items);
    }
    check_items(header, picture, &a[..n])
}
