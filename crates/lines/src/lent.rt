// A session of either screen with the buffers that its calls are lent; each call prints a line of what was answered.
use crate::{line, told};
use clarity::Clarity;
use header::Rectangle;
use paints::Paint;
use picture::refusal::{self, Refusal};
use session::screen::Screen;
use session::{Opened, Session};
use std::io;

// P pixels, and O words of output.
#[derive(Drop)]
pub struct Lent<S, const N: usize, const P: usize, const O: usize> {
    pub session: Session<S, N>,
    pub picture: [u32; P],
    pub output: [u32; O],
    pub marks: [u8; P],
}

impl<S: Screen<N>, const N: usize, const P: usize, const O: usize> Lent<S, N, P, O> {
    // Buffers before any call, with the session that stands beside a refusal.
    pub fn new(picture: [u32; P], mark: u8) -> Self {
        Lent {
            session: Session::default(),
            picture,
            output: [7; O],
            marks: [mark; P],
        }
    }

    // The session that is opened is the one that later calls are of, or where that is refused the one that stands beside it.
    pub fn open(&mut self, w: u32, h: u32, clarity: Clarity) -> Result<Opened<S, N>, Refusal> {
        let answer = Session::open(
            w,
            h,
            clarity,
            &self.picture,
            &mut self.output,
            &mut self.marks,
        );
        self.session = answer.unwrap_or_default().session;
        answer
    }

    // An opening, with the header's width and the stale count.
    pub fn opened(&mut self, rt: &impl Print, w: u32, h: u32, clarity: Clarity) -> io::Result<()> {
        let answer = self.open(w, h, clarity);
        told(rt, b"open", answer.map(|o| (o.session.header.w, o.stale)))
    }

    pub fn refresh(&mut self, rt: &impl Print, n: u32) -> io::Result<()> {
        let answer = self
            .session
            .refresh(&self.picture, &mut self.output, &mut self.marks, n);
        told(rt, b"refresh", answer.map(|r| (r.drawn, r.left)))
    }

    pub fn paint(&mut self, rt: &impl Print, column: u32, row: u32, word: u32) -> io::Result<()> {
        let paint = Paint { column, row, word };
        let answer = self
            .session
            .paint(&mut self.picture, &mut self.marks, paint);
        told(
            rt,
            b"paint",
            answer.map(|p| (u32::from(p.changed), p.stale)),
        )
    }

    // The first n items of a list, with how many they are: beside a refusal too.
    pub fn list(&mut self, rt: &impl Print, a: [Paint; 64], n: u32) -> io::Result<()> {
        let answer = self
            .session
            .paint_gathered(&mut self.picture, &mut self.marks, a, n as usize);
        line(
            rt,
            b"list",
            refusal::number(&answer),
            answer.unwrap_or_default(),
            n,
        )
    }

    // The first and the middle word of a block.
    pub fn show(&self, rt: &impl Print, bx: u32, by: u32) -> io::Result<()> {
        let answer = self.session.show(&self.output, &self.marks, bx, by);
        told(
            rt,
            b"show",
            answer.map(|words| (word(&words, 0), word(&words, N / 2))),
        )
    }

    // The session with another rectangle locked is the one that later calls are of, unless that is refused.
    pub fn lock(&mut self, lock: Rectangle) -> Result<Session<S, N>, Refusal> {
        let answer = self.session.lock(lock);
        self.session = answer.unwrap_or(self.session);
        answer
    }
}

fn word(words: &[u32], k: usize) -> u32 {
    words.get(k).copied().unwrap_or_default()
}
