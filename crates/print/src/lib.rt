// What page3x prints of a page file, written into a lent buffer.
#![tactic(auto)]

ghost use Rattle.std.specs.Prelude.{◌*◌, ◌≤◌, length};
ghost use Rattle.picture.specs.Answer.{number_of};
ghost use Rattle.text.specs.Text.{enlarged_text, refused_text, Prints};
ghost use Rattle.text.specs.Writes.{Writes};

use clarity::Clarity;
use page::{PageRead, read_page};
use picture::refusal::Refusal;
use text::{put_picture, put_refused};

// The longest file that page3x takes: four bytes for each of 1,024 words, and a trailer of twelve.
pub const FILE: usize = 4108;
// The longest text: ten bytes of a first line, and nine for each of 9 * 1,024 words.
pub const TEXT: usize = 82954;

// A page of at most 1,024 pixels, enlarged.
fn put_enlarged(page: PageRead, picture: &[u32], text: &mut [u8]) -> usize
    requires w_bound { (page.w ≤ 2048) × (page.h ≤ 2048) × (page.w * page.h ≤ 1024) × (page.w * page.h ≤ length picture.now) }
    requires picture_in_bounds { length (enlarged_text page.w page.h picture.now) ≤ length text.old }
    ensures { Writes 0 (enlarged_text page.w page.h picture.now) text.old text.new result }
{
    let PageRead { w, h } = page;
    let mut output = [0u32; 9216];
    let mut singles = [0.0f32; 8192];
    let mut bytes = [0u8; 8192];
    // nothing refuses it: the sides are within the limit, and the buffers long enough
    let _ = whole::scale(
        w,
        h,
        Clarity::Standard,
        picture,
        &mut output,
        &mut singles,
        &mut bytes,
    );
    let n = 9 * page.pixels();
    put_picture(3 * w, 3 * h, &output[..n], text)
}

// A refusal's line.
fn put_refusal(refusal: Refusal, text: &mut [u8]) -> usize
    requires { length (refused_text (number_of refusal)) ≤ length text.old }
    ensures { Writes 0 (refused_text (number_of refusal)) text.old text.new result }
{
    put_refused(refusal.number(), text)
}

// What page3x prints of a file, and how long it is. The page's words and the enlarged page lie on the stack.
pub fn page_text(file: &[u8], text: &mut [u8; TEXT]) -> usize
    ensures { Prints file.now text.old text.new result }
{
    if file.len() > FILE {
        return put_refusal(Refusal::Long, text);
    }
    let mut picture = [0u32; 1024];
    match read_page(file, &mut picture) {
        Ok(page) => put_enlarged(page, &picture[..page.pixels()], text),
        Err(refusal) => put_refusal(refusal, text),
    }
}
