// What a terminal is sent and says, and what a file of sites says.
use screen_page::{KeyReader, Pressed, Sites, Strip, Tone, frame};
use std::process::Abort;
use std::test::Fail;

// What bytes say, the last of them.
fn said(bytes: &[u8]) -> Pressed {
    let mut reader = KeyReader::new();
    let mut last = Pressed::Nothing;
    for byte in bytes {
        last = reader.feed(*byte);
    }
    last
}

fn is_key(rt: &impl Abort, bytes: &[u8], wanted: u8) {
    assert!(rt; said(bytes) == Pressed::Key(wanted));
}

fn is_none(rt: &impl Abort, bytes: &[u8]) {
    assert!(rt; said(bytes) == Pressed::Nothing);
}

#[test]
fn control_sequences_are_no_keys(rt: HostRuntime) {
    is_key(&rt, b"n", b'n');
    is_key(&rt, b"\x1b[An", b'n');
    is_key(&rt, b"\x1bOPR", b'R');
    is_none(&rt, b"\x1b");
    is_none(&rt, b"\x1b[1;5");
    is_none(&rt, b"\x1b[A");
    is_none(&rt, b"\x1bOR");
    is_none(&rt, b"\x1b[15~");
}

#[test]
fn a_terminal_tells_its_corner(rt: HostRuntime) {
    let corner = Pressed::Corner {
        rows: 24,
        columns: 80,
    };
    assert!(rt; said(b"\x1b[24;80R") == corner);
}

#[test]
fn an_escape_alone_is_a_key(rt: HostRuntime) {
    let mut reader = KeyReader::new();
    let _ = reader.feed(27);
    assert!(rt; reader.rest() == Pressed::Key(27));
}

fn is_text(rt: &impl Abort, text: Option<&[u8]>, wanted: &[u8]) {
    match text {
        Some(text) => assert!(rt; text == wanted),
        None => assert!(rt; wanted.is_empty()),
    }
}

#[test]
fn sites_and_keyholders(rt: HostRuntime) -> Result<(), Fail> {
    let text =
        b"site 1234 Villa Rosa, Main Street 5\nsite 12345 another\nkeyholder 1234 1 bob +49\nkeyholder 1234 2 eve 066\nsite A";
    let sites = Sites::of(text.to_vec(rt.alloc())?);
    is_text(&rt, sites.site(b"1234"), b"Villa Rosa, Main Street 5");
    is_text(&rt, sites.site(b"12345"), b"another");
    is_text(&rt, sites.site(b"123"), b"");
    is_text(&rt, sites.site(b"A"), b"");
    is_text(&rt, sites.holder(b"1234", 2), b"eve 066");
    is_text(&rt, sites.holder(b"1234", 3), b"");
    Ok(())
}

#[test]
fn a_row_is_drawn_without_control_bytes(rt: HostRuntime) {
    let mut strip = Strip::new();
    strip.put(b"a\x1b[2Jb\x07");
    let line = frame(3, Tone::Plainly, &strip, 5);
    assert!(rt; line.bytes() == b"\x1b[3;1H\x1b[0ma?[2J\x1b[0m\x1b[K".as_slice());
}
