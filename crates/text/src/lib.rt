// The text of a picture and of a refusal, written into a lent buffer piece by piece.
#![tactic(auto)]

ghost use Rattle.std.specs.Prelude.{◌≡◌, [], ◌∷◌, ◌++◌, ◌+◌, ◌*◌, ◌<◌, ◌≤◌, length};
ghost use Rattle.text.specs.Text.{digits, places, hex, decimal, spaced, line, rows};
ghost use Rattle.text.specs.Text.{sides_text, picture_text, refused_text};
ghost use Rattle.text.specs.Text.{digit as Text·digit};
ghost use Rattle.text.specs.Writes.{gap, Writes};

// A digit's character. Digits are written by hand: `write!` answers an error where its writer is full, which here never is, and what it
// writes would have to be shown to be the digits of `specs/Text.antt`, one by one.
fn digit(d: u32) -> u8
    requires { d < 16 }
    ensures { result ≡ Text·digit d }
{
    if d < 10 {
        b'0' + d as u8
    } else {
        b'a' + (d - 10) as u8
    }
}

// How many decimal digits a number below 10,000 takes.
fn places_of(n: u32) -> usize
    ensures { result ≡ places n }
{
    if n < 10 {
        return 1;
    }
    if n < 100 {
        return 2;
    }
    if n < 1000 {
        return 3;
    }
    4
}

// A text that is being written into a lent buffer: its bytes stand before the place `at`.
#[derive(Drop)]
struct Text<'a> {
    bytes: &'a mut [u8],
    at: usize,
}

impl<'a> Text<'a> {
    // One byte.
    fn put_byte(&mut self, byte: u8)
        requires { self.old.at + 1 ≤ length self.old.bytes.now }
        ensures same { self.new.bytes.ghost_name ≡ self.old.bytes.ghost_name }
        ensures long { length self.new.bytes.now ≡ length self.old.bytes.now }
        ensures written { Writes self.old.at (byte ∷ []) self.old.bytes.now self.new.bytes.now self.new.at }
    {
        self.bytes[self.at] = byte;
        self.at += 1;
    }

    // The bytes of a slice.
    fn put_bytes(&mut self, bytes: &[u8])
        requires { self.old.at + length bytes.now ≤ length self.old.bytes.now }
        ensures same { self.new.bytes.ghost_name ≡ self.old.bytes.ghost_name }
        ensures long { length self.new.bytes.now ≡ length self.old.bytes.now }
        ensures written { Writes self.old.at bytes.now self.old.bytes.now self.new.bytes.now self.new.at }
    {
        let next = self.at + bytes.len();
        self.bytes[self.at..next].copy_from_slice(bytes);
        self.at = next;
    }

    // The last k digits of n in a base.
    fn put_digits(&mut self, n: u32, base: u32, k: usize)
        requires { (0 < base) × (base ≤ 16) × (self.old.at + k ≤ length self.old.bytes.now) }
        ensures same { self.new.bytes.ghost_name ≡ self.old.bytes.ghost_name }
        ensures long { length self.new.bytes.now ≡ length self.old.bytes.now }
        ensures written { Writes self.old.at (digits base k n) self.old.bytes.now self.new.bytes.now self.new.at }
    {
        let mut rest = n;
        for i in (0..k).rev() {
            self.bytes[self.at + i] = digit(rest % base);
            rest /= base;
        }
        self.at += k;
    }

    fn put_decimal(&mut self, n: u32)
        requires { self.old.at + length (decimal n) ≤ length self.old.bytes.now }
        ensures same { self.new.bytes.ghost_name ≡ self.old.bytes.ghost_name }
        ensures long { length self.new.bytes.now ≡ length self.old.bytes.now }
        ensures written { Writes self.old.at (decimal n) self.old.bytes.now self.new.bytes.now self.new.at }
    {
        self.put_digits(n, 10, places_of(n));
    }

    // Word i of a row: eight digits, after a space unless it is the first.
    fn put_word(&mut self, word: u32, i: usize)
        requires { self.old.at + length (gap i ++ hex word) ≤ length self.old.bytes.now }
        ensures same { self.new.bytes.ghost_name ≡ self.old.bytes.ghost_name }
        ensures long { length self.new.bytes.now ≡ length self.old.bytes.now }
        ensures written { Writes self.old.at (gap i ++ hex word) self.old.bytes.now self.new.bytes.now self.new.at }
    {
        if i == 0 {
            self.put_digits(word, 16, 8);
        } else {
            self.put_byte(b' ');
            self.put_digits(word, 16, 8);
        }
    }

    // A row's line.
    fn put_row(&mut self, words: &[u32])
        requires { self.old.at + length (line (spaced words.now)) ≤ length self.old.bytes.now }
        ensures same { self.new.bytes.ghost_name ≡ self.old.bytes.ghost_name }
        ensures long { length self.new.bytes.now ≡ length self.old.bytes.now }
        ensures written { Writes self.old.at (line (spaced words.now)) self.old.bytes.now self.new.bytes.now self.new.at }
    {
        for (i, word) in words.iter().enumerate() {
            self.put_word(*word, i);
        }
        self.put_byte(b'\n');
    }

    // The lines of h rows of w words.
    fn put_rows(&mut self, w: usize, h: usize, words: &[u32])
        requires { (h * w ≤ length words.now) × (self.old.at + length (rows w h words.now) ≤ length self.old.bytes.now) }
        ensures same { self.new.bytes.ghost_name ≡ self.old.bytes.ghost_name }
        ensures long { length self.new.bytes.now ≡ length self.old.bytes.now }
        ensures written { Writes self.old.at (rows w h words.now) self.old.bytes.now self.new.bytes.now self.new.at }
    {
        for y in 0..h {
            let from = y * w;
            self.put_row(&words[from..from + w]);
        }
    }

    // A picture's first line: its sides.
    fn put_sides(&mut self, w: u32, h: u32)
        requires { self.old.at + length (sides_text w h) ≤ length self.old.bytes.now }
        ensures same { self.new.bytes.ghost_name ≡ self.old.bytes.ghost_name }
        ensures long { length self.new.bytes.now ≡ length self.old.bytes.now }
        ensures written { Writes self.old.at (sides_text w h) self.old.bytes.now self.new.bytes.now self.new.at }
    {
        self.put_decimal(w);
        self.put_byte(b' ');
        self.put_decimal(h);
        self.put_byte(b'\n');
    }
}

// A picture's sides and rows.
pub fn put_picture(w: u32, h: u32, words: &[u32], text: &mut [u8]) -> usize
    requires { (h * w ≤ length words.now) × (length (picture_text w h words.now) ≤ length text.old) }
    ensures { Writes 0 (picture_text w h words.now) text.old text.new result }
{
    let mut t = Text { bytes: text, at: 0 };
    t.put_sides(w, h);
    t.put_rows(w as usize, h as usize, words);
    t.at
}

// A refusal's line. It takes the number, as it promises the line of every number.
pub fn put_refused(number: u32, text: &mut [u8]) -> usize
    requires { length (refused_text number) ≤ length text.old }
    ensures { Writes 0 (refused_text number) text.old text.new result }
{
    let mut t = Text { bytes: text, at: 0 };
    t.put_bytes(b"refused ");
    t.put_decimal(number);
    t.put_byte(b'\n');
    t.at
}
