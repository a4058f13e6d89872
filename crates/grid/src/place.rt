// Places beside a pixel on one axis, stopped at both borders.
ghost use Rattle.std.specs.Prelude.{◌≡◌, ◌+◌, ◌-◌, ◌<◌, min};
ghost use Rattle.grid.specs.Places.{Threes, Apart};

// p plus d, or the last of n places.
fn more(p: u32, d: u32, n: u32) -> u32
    requires { p < n }
    ensures { result ≡ min (p + d) (n - 1) }
{
    p + d.min(n - 1 - p)
}

// A place with one before and one after it.
#[derive(Clone, Copy)]
pub struct Three {
    pub before: u32,
    pub at: u32,
    pub after: u32,
}

// The place p of n with those d before it and d after it; the last place at a border stands for those outside.
pub fn places_at(p: u32, d: u32, n: u32) -> Three
    requires { p < n }
    ensures { Apart d n p result }
{
    Three {
        before: p.saturating_sub(d),
        at: p,
        after: more(p, d, n),
    }
}

// The place p of n with those beside it; at a border it stands for the one outside.
pub fn three_at(p: u32, n: u32) -> Three
    requires { p < n }
    ensures { Threes n p result }
{
    places_at(p, 1, n)
}
