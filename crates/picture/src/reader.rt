// The reader: a picture's words with its two sizes, and thin functions over it, of which `picture::get`, over the plain slice, does the
// work. It asks for no number of words: past the last one it reads 0.
ghost use Rattle.std.specs.Prelude.{◌≡◌};
ghost use Rattle.picture.specs.Picture.{near, words};

#[derive(Clone, Copy)]
pub struct Reader<'a> {
    pub words: &'a [u32],
    pub w: u32,
    pub h: u32,
}

impl<'a> Reader<'a> {
    // The reader of a picture of w by h words.
    pub fn over(words: &'a [u32], w: u32, h: u32) -> Reader<'a>
        ensures { (result.words ≡ words.entry) × ((result.w ≡ w) × (result.h ≡ h)) }
    {
        Reader { words, w, h }
    }

    // The word at an offset from (x, y), clamped at both borders.
    pub fn get(self, x: u32, y: u32, dx: i32, dy: i32) -> u32
        ensures { result ≡ near self.entry.w self.entry.h (words self.entry.w self.entry.words.now) x y dx dy }
    {
        crate::get(self.words, self.w, self.h, x, y, dx, dy)
    }
}
