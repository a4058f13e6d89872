// The reader of a page file: pixels as little-endian words, then a trailer of twelve bytes at the file's end.
#![tactic(auto)]

ghost use Rattle.std.specs.Prelude.{◌≡◌, ◌+◌, ◌*◌, ◌^◌, ◌<◌, ◌≤◌, length};
ghost use Rattle.picture.specs.Fill.{put};
ghost use Rattle.page.specs.Page.{little_endian, part, words_from, trailer_of, read_of, Reads};
ghost use Rattle.page.specs.Answers.{trailer_answer, page_answer};

use picture::refusal::Refusal;

// The sides of a page that was read.
#[derive(Clone, Copy)]
pub struct PageRead {
    pub w: u32,
    pub h: u32,
}

impl PageRead {
    // How many pixels it has.
    pub fn pixels(self) -> usize
        ensures { result ≡ self.w * self.h }
    {
        (self.w as usize) * (self.h as usize)
    }
}

// What a file's last twelve bytes say: the page's sides and back.
#[derive(Clone, Copy)]
struct Trailer {
    w: u32,
    h: u32,
    back: u32,
}

// The largest side.
const SIDE: u32 = 2048;
// The trailer's last four bytes, read as a word.
const MARK: u32 = 0x45474150;

// The 16 bits at a place, the low byte first.
fn half_at(file: &[u8], at: usize) -> u32
    requires { at + 2 ≤ length file.now }
    ensures { (result ≡ little_endian (part at 2 file.now)) × (result < 2 ^ 16) }
{
    u16::from_le_bytes([file[at], file[at + 1]]) as u32
}

// The 32 bits at a place, the low byte first.
fn word_at(file: &[u8], at: usize) -> u32
    requires { at + 4 ≤ length file.now }
    ensures { (result ≡ little_endian (part at 4 file.now)) × (result < 2 ^ 32) }
{
    u32::from_le_bytes([file[at], file[at + 1], file[at + 2], file[at + 3]])
}

// The trailer with which a file ends, unless it is bad; whether its page is all of the file is not asked. A page that ends at a place e of
// a longer file has the trailer of `&file[..e]`.
fn trailer_of(file: &[u8]) -> Option<Trailer>
    ensures { trailer_answer result ≡ trailer_of file.now }
{
    let n = file.len();
    if n < 12 {
        return None;
    }
    if word_at(file, n - 4) != MARK {
        return None;
    }
    let w = half_at(file, n - 12);
    let h = half_at(file, n - 10);
    let back = word_at(file, n - 8);
    // in 64 bits, where no product of two sides wraps
    if (back as u64) != 12 + 4 * ((w as u64) * (h as u64)) {
        return None;
    }
    Some(Trailer { w, h, back })
}

// The answer, by the trailer, the file's length and the room for the picture.
fn examined(file: &[u8], room: usize) -> Result<PageRead, Refusal>
    ensures { page_answer result ≡ read_of file.now room }
{
    let Some(page) = trailer_of(file) else {
        return Err(Refusal::Trailer);
    };
    // the page is all of the file: it starts at the first byte
    if (page.back as usize) != file.len() {
        return Err(Refusal::Trailer);
    }
    if page.w > SIDE {
        return Err(Refusal::Side);
    }
    if page.h > SIDE {
        return Err(Refusal::Side);
    }
    if room < (page.w as usize) * (page.h as usize) {
        return Err(Refusal::Picture);
    }
    Ok(PageRead {
        w: page.w,
        h: page.h,
    })
}

// The file's first n words, into the first n of the picture.
fn fill(file: &[u8], picture: &mut [u32], n: usize)
    requires { (4 * n ≤ length file.now) × (n ≤ length picture.old) }
    ensures { picture.new ≡ put 0 (words_from 0 n file.now) picture.old }
{
    for i in 0..n {
        picture[i] = word_at(file, 4 * i);
    }
}

// Reads a page: its sides, and its words into the first w * h of the picture.
pub fn read_page(file: &[u8], picture: &mut [u32]) -> Result<PageRead, Refusal>
    ensures { Reads file.now picture.old picture.new (page_answer result) }
{
    let page = examined(file, picture.len())?;
    fill(file, picture, page.pixels());
    Ok(page)
}
