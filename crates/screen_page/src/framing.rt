// What a terminal is sent for a row.
ghost use Rattle.std.specs.Prelude.{◌≡◌, ◌<◌, ◌≤◌, ◌++◌, ◌∷◌, true, length, take, codes};
ghost use Rattle.screen_page.specs.Frames.{bytes_of_row, frame_of, tone_codes};
ghost use Rattle.screen_page.specs.Pages.{page_row};
ghost use Rattle.screen_page.specs.Stars.{without_pin};
ghost use Rattle.screen_page.specs.Texts.{are_plain};

use crate::layout::{Page, row};
use crate::line::Line;
use crate::strip::Strip;
use crate::tone::Tone;

fn tone_codes(tone: Tone) -> &'static [u8]
    ensures text { result.now ≡ tone_codes tone }
    ensures short { length result.now ≤ 7 }
{
    match tone {
        Tone::Plainly => b"0",
        Tone::Heading => b"1",
        Tone::Grave => b"1;37;41",
        Tone::Urgent => b"1;30;43",
        Tone::Lesser => b"36",
        Tone::Mine => b"1;32",
        Tone::Faint => b"2",
    }
}

/// The bytes that draw a row at its place, from 1 on, cut to so many columns: control sequences of its place and its colour, and else
/// the printable bytes of the strip alone.
pub fn frame(row: u16, tone: Tone, strip: &Strip, columns: usize) -> Line
    ensures bytes { result ≡ frame_of row tone (take columns strip.now) }
    ensures plain { are_plain strip.now ≡ true }
{
    let text = strip.bytes();
    let text = &text[..columns.min(text.len())];
    let mut line = Line::new();
    line.put(b"\x1b[");
    line.put_number(u64::from(row));
    line.put(b";1H");
    line.put(b"\x1b[");
    line.put(tone_codes(tone));
    line.put(b"m");
    line.put(text);
    line.put(b"\x1b[0m");
    line.put(b"\x1b[K");
    line
}

/// The bytes that draw a row of a page, at an index from 0 on, cut to the terminal's columns. Its text is printable, whatever the desk has
/// sent, and has no digits of a PIN.
#[tactic(auto, using(crate::proofs::Stars::page_same))]
pub fn row_bytes(page: &Page, index: u16) -> Line
    requires { index < 65_535 }
    ensures plain { are_plain (page_row page.now.screen.now page.now.sites.now page.now.past.now page.now.shown page.now.size.rows page.now.moment index).1 ≡ true }
    ensures pin { page_row page.now.screen.now page.now.sites.now page.now.past.now page.now.shown page.now.size.rows page.now.moment index ≡ page_row (without_pin page.now.screen.now) page.now.sites.now page.now.past.now page.now.shown page.now.size.rows page.now.moment index }
    ensures bytes { result ≡ bytes_of_row (page_row page.now.screen.now page.now.sites.now page.now.past.now page.now.shown page.now.size.rows page.now.moment index) index page.now.size.columns }
{
    let (tone, strip) = row(page, usize::from(index));
    frame(index + 1, tone, &strip, usize::from(page.size.columns))
}
