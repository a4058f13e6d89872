// Replays the recorded answers of the original, from standard input, and prints how many were compared and how many differ.
//
// The recording is 32-bit little-endian words: the number of pictures, then for each picture its form, w, h, wh, and its wh
// words. In form 1 follow 25wh words: 4wh metrics and 4wh weights as patterns, 4wh junction numbers, 4wh tag numbers and the
// 9wh words of the output. In form 2 follow a digest of each of these five parts, and one of the 81wh words of the
// nine-times output.
#![tactic(auto)]

mod recorded;
mod replay;
mod tally;

use replay::Buffers;
use std::io;
use tally::Tally;

fn main(rt: HostRuntime) -> io::Result<()> {
    let mut picture = [0; 1024];
    let mut lent = Buffers {
        output: [0; 82944],
        middle: [0; 9216],
        singles: [0.0; 73728],
        bytes: [0; 73728],
    };
    let mut input = rt.stdin();
    let mut t = Tally::new();
    let n = recorded::next(&mut input)?;
    for _ in 0..n {
        let p = recorded::next_head(&mut input)?;
        recorded::fill(&mut input, &mut picture, p.n)?;
        replay::three_times(&mut input, &mut t, p, &picture, &mut lent)?;
        replay::nine_times(&mut input, &mut t, p, &picture, &mut lent)?;
    }
    println!(rt; "{t}")
}
