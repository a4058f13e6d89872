// The page reader.
ghost use Rattle.page.specs.Page.{Reads};

use page::PageRead;
use picture::refusal::number;

// The sides that stand beside a refusal.
const NO_PAGE: PageRead = PageRead { w: 0, h: 0 };

// The sides and the words of a page file.
#[unsafe(no_mangle)]
pub extern "C" fn panel_read_page(file: &[u8], picture: &mut [u32], w: &mut u32, h: &mut u32) -> u32
    ensures { Reads file.now picture.old picture.new
        (record { refusal = result; w = w.new; h = h.new }) }
{
    let answer = page::read_page(file, picture);
    let read = answer.unwrap_or(NO_PAGE);
    *w = read.w;
    *h = read.h;
    number(&answer)
}
