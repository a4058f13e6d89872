// Searches for the rectangle round the stale blocks of a part of the picture: its first and last column and row. They promise that what
// they leave out has no stale block. That they leave out all they can keeps tiles small; what is drawn does not depend on it, so it is not
// promised.
#![tactic(auto)]

ghost use Rattle.std.specs.Prelude.{◌≡◌, true, ◌+◌, ◌<◌, ◌≤◌, eqb, length, map};
ghost use Rattle.std.specs.List.{prefix_len};
ghost use Rattle.machine.specs.Lists.{count};
ghost use Rattle.machine.specs.Calls.{is_stale};
ghost use Rattle.marks.specs.Marks.{ClearUpTo, ClearFrom, Clear, Part};

use marks::{Area, count_run, count_stale};

// How many marks are passed at a time where none is stale: as many as the compiler takes together.
const STEP: usize = 32;

// How many steps without a stale mark stand at the front.
fn clear_steps(steps: &[[u8; STEP]]) -> usize
    ensures { result ≡ prefix_len (λ step. eqb (count (map is_stale step)) 0) steps.now }
{
    steps
        .iter()
        .take_while(|step| count_run(*step) == 0)
        .count()
}

// Where the marks begin once whole steps without a stale one at their start are left out.
fn skip_clear(marks: &[u8]) -> usize
    ensures { ClearUpTo 0 (length marks.now) marks.now result }
{
    let (steps, _) = marks.as_chunks::<STEP>();
    STEP * clear_steps(steps)
}

// The first stale mark, looked for one by one; their number if there is none.
fn next_stale(marks: &[u8]) -> usize
    ensures { ClearUpTo 0 (length marks.now) marks.now result }
{
    match marks.iter().position(|mark| *mark != 0) {
        Some(first) => first,
        None => marks.len(),
    }
}

// The first stale mark; their number if there is none.
fn first_stale(marks: &[u8]) -> usize
    ensures { ClearUpTo 0 (length marks.now) marks.now result }
{
    let clear = skip_clear(marks);
    clear + next_stale(&marks[clear..])
}

// Where the marks end once those at their end that are not stale are left out.
fn last_stale(marks: &[u8]) -> usize
    ensures { ClearFrom 0 (length marks.now) marks.now result }
{
    match marks.iter().rposition(|mark| *mark != 0) {
        Some(last) => last + 1,
        None => 0,
    }
}

// The first column from x on, before `end`, with a stale block in rows y to bottom - 1; `end` if there is none.
pub fn first_column(marks: &[u8], w: u32, a: Area) -> u32
    requires { Part w a.x a.end a.y a.bottom marks.now }
    ensures { (a.x ≤ result) × ((result ≤ a.end) × Clear w a.x result a.y a.bottom marks.now) }
{
    let mut c = a.end;
    for j in a.y..a.bottom {
        let i = (j as usize) * (w as usize);
        c = a.x + first_stale(&marks[i + a.x as usize..i + c as usize]) as u32;
    }
    c
}

// Where columns x to end - 1 end once those at the right without a stale block in rows y to bottom - 1 are left out; one column stays.
pub fn column_end(marks: &[u8], w: u32, a: Area) -> u32
    requires { (a.x < a.end) × Part w a.x a.end a.y a.bottom marks.now }
    ensures { (a.x < result) × ((result ≤ a.end) × Clear w result a.end a.y a.bottom marks.now) }
{
    let mut c = a.x + 1;
    for row in a.y..a.bottom {
        let i = (row as usize) * (w as usize);
        c += last_stale(&marks[i + c as usize..i + a.end as usize]) as u32;
    }
    c
}

// Whether columns x to end - 1 of row j have no stale block.
fn row_clear(marks: &[u8], w: u32, a: Area, j: u32) -> bool
    requires { Part w a.x a.end j (j + 1) marks.now }
    ensures { result ≡ true → Clear w a.x a.end j (j + 1) marks.now }
{
    let i = (j as usize) * (w as usize);
    count_stale(marks, i + a.x as usize, i + a.end as usize) == 0
}

// The first row from y on with a stale block in columns x to end - 1; the last row before `bottom` if there is none.
pub fn first_row(marks: &[u8], w: u32, a: Area) -> u32
    requires { (a.y < a.bottom) × Part w a.x a.end a.y a.bottom marks.now }
    ensures { (a.y ≤ result) × ((result < a.bottom) × Clear w a.x a.end a.y result marks.now) }
{
    let last = a.bottom - 1;
    for r in a.y..last {
        if !row_clear(marks, w, a, r) {
            return r;
        }
    }
    last
}

// Where rows y to bottom - 1 end once those at the bottom without a stale block in columns x to end - 1 are left out; one row stays.
pub fn row_end(marks: &[u8], w: u32, a: Area) -> u32
    requires { (a.y < a.bottom) × Part w a.x a.end a.y a.bottom marks.now }
    ensures { (a.y < result) × ((result ≤ a.bottom) × Clear w a.x a.end result a.bottom marks.now) }
{
    for r in (a.y + 1..a.bottom).rev() {
        if !row_clear(marks, w, a, r) {
            return r + 1;
        }
    }
    a.y + 1
}
