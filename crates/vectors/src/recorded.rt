// The words of the recording, one after the other from standard input.
use std::io;
use std::io::{ErrorKind, Read};

// The next word; 0 past the end of the recording.
pub fn next(input: &mut impl Read) -> io::Result<u32> {
    let mut b = [0; 4];
    match input.read_exact(&mut b) {
        Err(e) if e.kind() == ErrorKind::UnexpectedEof => Ok(0),
        Err(e) => Err(e),
        Ok(()) => Ok(u32::from_le_bytes(b)),
    }
}

// A picture's head: whether its values are recorded in full and not by digests, its sides, and its pixels.
#[derive(Clone, Copy)]
pub struct Head {
    pub full: bool,
    pub w: u32,
    pub h: u32,
    pub n: u32,
}

// The head of the next picture.
pub fn next_head(input: &mut impl Read) -> io::Result<Head> {
    let full = next(input)? == 1;
    let w = next(input)?;
    let h = next(input)?;
    let n = next(input)?;
    Ok(Head { full, w, h, n })
}

// The next n words, as far as there is room for them.
pub fn fill(input: &mut impl Read, words: &mut [u32], n: u32) -> io::Result<()> {
    for i in 0..n as usize {
        let word = next(input)?;
        if i < words.len() {
            words[i] = word;
        }
    }
    Ok(())
}
