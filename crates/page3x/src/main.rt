// Reads a page file from standard input and prints the page three times as large, or the number of its refusal.
#![tactic(auto)]

ghost use Rattle.std.specs.Prelude.{IfOk, length, ◌≤◌};

use std::io;
use std::io::{IsTerminal, Read};

// Says on standard error where the page is read from, where standard input is a terminal: someone may be waiting there who
// gave the file's name as a word. Nothing else depends on it.
fn say_where(rt: &HostRuntime) {
    if rt.stdin().is_terminal() {
        let _ = rt.eprintln("page3x reads a page from standard input: page3x < FILE");
    }
}

// Reads until the buffer is full or the input ends, and answers how many bytes of the buffer were read. A loop of its own, since
// `read_exact` refuses a shorter input and `read_to_end` takes an allocator.
fn read_full(input: &mut impl Read, buffer: &mut [u8]) -> io::Result<usize>
    ensures { IfOk result (λ n. n ≤ length buffer.new) }
{
    let mut done = 0;
    while done < buffer.len() {
        let n = input.read(&mut buffer[done..])?;
        if n == 0 {
            break;
        }
        done += n;
    }
    Ok(done)
}

fn main(rt: HostRuntime) -> io::Result<()> {
    say_where(&rt);
    // One byte past the longest file that is taken: a longer one is then known to be longer.
    let mut file = [0u8; print::FILE + 1];
    let n = read_full(&mut rt.stdin(), &mut file)?;
    let mut text = [0u8; print::TEXT];
    let k = print::page_text(&file[..n], &mut text);
    let written = rt.write_all(&text[..k]);
    if written.is_err() {
        let _ = rt.eprintln("page3x: the text could not be written whole");
    }
    written
}
