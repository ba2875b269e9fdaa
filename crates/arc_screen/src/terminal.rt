// The terminal.
ghost use Rattle.std.specs.Prelude.{◌<◌};

use screen_page::{Page, row_bytes};
use std::io;
use std::io::Write;

// Sends the cursor to the last corner and asks where it stands: so the terminal tells its size.
const CORNER: &[u8] = b"\x1b[999;999H\x1b[6n";

/// Rings the bell.
pub fn ring<W: Write>(out: &mut W) -> io::Result<()> {
    out.write_all(b"\x07")?;
    out.flush()
}

/// Asks for the size.
pub fn ask_size<W: Write>(out: &mut W) -> io::Result<()> {
    out.write_all(CORNER)?;
    out.flush()
}

fn draw_row<W: Write>(out: &mut W, page: &Page, index: u16) -> io::Result<()>
    requires { index < 65_535 }
{
    out.write_all(row_bytes(page, index).bytes())
}

/// Draws a page.
pub fn draw<W: Write>(out: &mut W, page: &Page) -> io::Result<()> {
    for index in 0..page.size.rows {
        draw_row(out, page, index)?;
    }
    out.flush()
}
