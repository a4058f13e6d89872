// The paint and the paint list of a session, once for both screens: each takes the scale and the header, as the calls of `calls` do. A list
// comes as an array with the first 64 of its items. `specs/Answers.antt` says what stands for an answer's values beside a refusal.
#![tactic(auto)]

ghost use Rattle.picture.specs.Answer.{refusal_of};
ghost use Rattle.machine.specs.Calls.{Paints, PaintLists};
ghost use Rattle.paints.specs.Paints.{listed};
ghost use Rattle.screens.specs.Screens.{screen_of};
ghost use Rattle.painted.specs.Answers.{painted_in, changed_in, count_in};

use crate::store::{store_items, store_word};
use header::Header;
use marks::count_stale;
use paint_refusals::{check_list, check_paint};
use paints::Paint;
use picture::refusal::Refusal;
use screens::side;

mod store;

// changed: the word was stored, and not there already. The default is what stands beside a refusal.
#[derive(Clone, Copy, Default)]
pub struct Painted {
    pub changed: bool,
    pub stale: u32,
}

// The word stored at its place, unless that is locked, and the blocks that may depend on it made stale.
pub fn paint(
    scale: u32,
    header: Header,
    picture: &mut [u32],
    marks: &mut [u8],
    paint: Paint,
) -> Result<Painted, Refusal>
    ensures { Paints (screen_of scale) header picture.old marks.old paint.column paint.row paint.word
        (record {
          picture = picture.new;
          marks = marks.new;
          refusal = refusal_of result;
          changed = changed_in result;
          stale = (painted_in result).stale;
        }) }
{
    check_paint(side(scale), header, picture, marks.len(), paint)?;
    let changed = store_word(scale, header, picture, marks, paint);
    let n = header.blocks();
    let stale = count_stale(marks, 0, n);
    Ok(Painted { changed, stale })
}

// The paints of a list, all of them in its order or, where one would be refused at its turn, none: a has the first 64 of the list's n
// items. Where n is less, what stands behind them in a is not looked at. It answers the stale count.
pub fn paint_gathered(
    scale: u32,
    header: Header,
    picture: &mut [u32],
    marks: &mut [u8],
    a: [Paint; 64],
    n: usize,
) -> Result<u32, Refusal>
    ensures { PaintLists (screen_of scale) header picture.old marks.old (listed n a)
        (record {
          picture = picture.new;
          marks = marks.new;
          refusal = refusal_of result;
          stale = count_in result;
        }) }
{
    check_list(side(scale), header, picture, marks.len(), &a, n)?;
    store_items(scale, header, picture, marks, &a[..n]);
    let b = header.blocks();
    Ok(count_stale(marks, 0, b))
}
