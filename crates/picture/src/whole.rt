// A picture whose words are all there, by its type. The reader of `reader` asks for no number of words.
ghost use Rattle.std.specs.Prelude.{◌≡◌, ◌*◌, ◌<◌, ◌≤◌, length};
ghost use Rattle.picture.specs.Picture.{words};

#[derive(Clone, Copy)]
pub struct Picture<'a> {
    pub words: &'a [u32],
    pub w: u32,
    pub h: u32,
    pub ghost whole: { w * h ≤ length words.now },
}

impl<'a> Picture<'a> {
    // The word at (x, y).
    pub fn at(self, x: u32, y: u32) -> u32
        requires { (x < self.w) × (y < self.h) }
        ensures { result ≡ words self.entry.w self.entry.words.now x y }
    {
        let i = (y as usize) * (self.w as usize) + (x as usize);
        self.words[i]
    }
}
