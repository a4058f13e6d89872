// A list walked once, into an array of paints: what the calls that store a list read is the array.
#![tactic(auto)]

ghost use Rattle.std.specs.Prelude.{◌≡◌, map, ◌≤◌, length};
ghost use Rattle.paints.specs.Paints.{gathered};

use paints::item::Item;
use paints::{Paint, none};

// The paints that the first m items of a list stand for, by value.
pub fn gather_items<T: Item>(items: &[T], m: usize) -> [Paint; 64]
    requires there { m ≤ length items.now }
    requires few { m ≤ 64 }
    ensures { result ≡ gathered (map T.paint items.now) m }
{
    let mut a = none();
    // By index: of an array that is written through a `zip` with its `iter_mut` a proof learns nothing.
    for i in 0..m {
        a[i] = items[i].paint();
    }
    a
}

// The same of a list of paints.
pub fn gather(items: &[Paint], m: usize) -> [Paint; 64]
    requires { (m ≤ length items.now) × (m ≤ 64) }
    ensures { result ≡ gathered items.now m }
{
    gather_items(items, m)
}
