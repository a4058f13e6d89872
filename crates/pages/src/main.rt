// Page files at the edges: what the reader answers and leaves in a buffer of four words that held 7, then the text and its length.
#![tactic(auto)]

use page::PageRead;
use picture::refusal;
use std::io;

// The sides that are printed beside a refusal.
const NO_PAGE: PageRead = PageRead { w: 0, h: 0 };

// The reader's answer, and the buffer's words.
fn read(rt: &impl Print, file: &[u8]) -> io::Result<()> {
    let mut picture = [7u32; 4];
    let answer = page::read_page(file, &mut picture);
    let number = refusal::number(&answer);
    let page = answer.unwrap_or(NO_PAGE);
    let w = page.w;
    let h = page.h;
    print!(rt; "{number} {w} {h}")?;
    for word in picture {
        print!(rt; " {word:08x}")?;
    }
    rt.println("")
}

// The text's length, and the text; of a long one its first six bytes.
fn print(rt: &impl Print, file: &[u8]) -> io::Result<()> {
    let mut text = [0u8; print::TEXT];
    let k = print::page_text(file, &mut text);
    println!(rt; "{k}")?;
    if k < 4096 {
        rt.write_all(&text[..k])
    } else {
        rt.write_all(&text[..6])?;
        rt.println("")
    }
}

fn show(rt: &impl Print, file: &[u8]) -> io::Result<()> {
    read(rt, file)?;
    print(rt, file)
}

// 4,108 bytes that end with the trailer of w by h pixels and this back, and `lead` bytes before them.
fn longest(rt: &impl Print, lead: usize, w: u8, h: u8, back: u16) -> io::Result<()> {
    let mut file = [0u8; 4112];
    file[4100] = w;
    file[4102] = h;
    file[4104..4106].copy_from_slice(&back.to_le_bytes());
    file[4108..].copy_from_slice(b"PAGE");
    if lead < 4 {
        print(rt, &file[4 - lead..])?;
    }
    Ok(())
}

fn main(rt: HostRuntime) -> io::Result<()> {
    // One pixel; the same after a byte, and without its first byte; two such pages glued together.
    show(&rt, b"\x33\x22\x11\x00\x01\x00\x01\x00\x10\x00\x00\x00PAGE")?;
    show(
        &rt,
        b"a\x33\x22\x11\x00\x01\x00\x01\x00\x10\x00\x00\x00PAGE",
    )?;
    show(&rt, b"\x22\x11\x00\x01\x00\x01\x00\x10\x00\x00\x00PAGE")?;
    show(
        &rt,
        b"\x33\x22\x11\x00\x01\x00\x01\x00\x10\x00\x00\x00PAGE\x33\x22\x11\x00\x01\x00\x01\x00\x10\x00\x00\x00PAGE",
    )?;
    // Two pixels, and three rows of one.
    show(
        &rt,
        b"\x01\x02\x03\x04\x05\x06\x07\x08\x02\x00\x01\x00\x14\x00\x00\x00PAGE",
    )?;
    show(
        &rt,
        b"\x01\x00\x00\x00\x02\x00\x00\x00\x03\x00\x00\x00\x01\x00\x03\x00\x18\x00\x00\x00PAGE",
    )?;
    // Five pixels: the buffer of four words is short.
    show(
        &rt,
        b"\x01\x01\x01\x01\x02\x02\x02\x02\x03\x03\x03\x03\x04\x04\x04\x04\x05\x05\x05\x05\x05\x00\x01\x00\x20\x00\x00\x00PAGE",
    )?;
    // Eleven bytes; twelve; thirteen, with a back of twelve and of thirteen.
    show(&rt, b"\x00\x00\x00\x0c\x00\x00\x00PAGE")?;
    show(&rt, b"\x00\x00\x00\x00\x0c\x00\x00\x00PAGE")?;
    show(&rt, b"a\x00\x00\x00\x00\x0c\x00\x00\x00PAGE")?;
    show(&rt, b"a\x00\x00\x00\x00\x0d\x00\x00\x00PAGE")?;
    // The mark wrong; back wrong; back past the file; a product that would wrap.
    show(&rt, b"\x00\x00\x00\x00\x0c\x00\x00\x00PAGF")?;
    show(&rt, b"\x00\x00\x00\x00\x0d\x00\x00\x00PAGE")?;
    show(&rt, b"\x01\x00\x01\x00\x10\x00\x00\x00PAGE")?;
    show(&rt, b"\x00\x80\x00\x80\x0c\x00\x00\x00PAGE")?;
    // Sides at the limit and past it, and past it after a byte.
    show(&rt, b"\x00\x00\x00\x08\x0c\x00\x00\x00PAGE")?;
    show(&rt, b"\x00\x08\x00\x00\x0c\x00\x00\x00PAGE")?;
    show(&rt, b"\x00\x00\x01\x08\x0c\x00\x00\x00PAGE")?;
    show(&rt, b"\x01\x08\x00\x00\x0c\x00\x00\x00PAGE")?;
    show(&rt, b"a\x01\x08\x00\x00\x0c\x00\x00\x00PAGE")?;
    // 4,108 bytes, and 4,109: with the trailer of 32 by 32 pixels, a page of 4,108, and of 30 by 34, a page of 4,092.
    longest(&rt, 0, 32, 32, 0x100c)?;
    longest(&rt, 1, 32, 32, 0x100c)?;
    longest(&rt, 0, 30, 34, 0x0ffc)?;
    longest(&rt, 1, 30, 34, 0x0ffc)
}
