// Lines of a name and numbers on the standard output, for programs that print what the calls of a session answered.
#![tactic(auto)]

use picture::refusal::{self, Refusal};
use std::io;

pub mod lent;
pub mod walk;

pub fn line(rt: &impl Print, name: &[u8], a: u32, b: u32, c: u32) -> io::Result<()> {
    rt.write_all(name)?;
    println!(rt; " {a} {b} {c}")
}

// A call's answer: the refusal's number, 0 for none, and two numbers that it answered, which are 0 beside a refusal.
pub fn told(rt: &impl Print, name: &[u8], answer: Result<(u32, u32), Refusal>) -> io::Result<()> {
    let (a, b) = answer.unwrap_or_default();
    line(rt, name, refusal::number(&answer), a, b)
}
