// A desk's connection, and the screen over it.
use crate::terminal::{ask_size, draw, ring};
use crate::words::Words;
use arc_text::{LineCut, LineCutter};
use desk_screen::{Order, Reaction, Screen};
use screen_page::{
    KeyReader, Page, Past, Pressed, Shown, Sites, Size, is_at_work, leaves, order_line, shown_after,
};
use std::io::{BufWriter, ErrorKind, Read, Write};
use std::net::{OpenStream, TcpStream};
use std::time::{Duration, Instant, SystemTime};
use std::{fs, io};

// How long a line of the desk may be: the longest is a list of 16 incidents.
const LINE: usize = 4096;

// How many milliseconds an answer is waited for before the keys are looked at again.
const WAIT: u64 = 10;

// How often in a row the keyboard may give nothing at once. A terminal's mode makes it wait; one that has ended does not.
const EMPTY: u32 = 200;

/// A screen over a desk's port and a terminal.
pub struct Desk {
    host: String,
    port: u16,
    stream: Option<TcpStream>,
    screen: Screen,
    cutter: LineCutter,
    keys: KeyReader,
    past: Past,
    sites: Option<Sites>,
    shown: Shown,
    size: Size,
    is_drawn: bool,
    is_due: bool,
    empty: u32,
}

impl Drop for Desk {
    fn drop(self) {
        let Desk {
            host,
            port: _,
            stream,
            screen,
            cutter,
            keys,
            past,
            sites,
            shown: _,
            size: _,
            is_drawn: _,
            is_due: _,
            empty: _,
        } = self;
        drop(host);
        drop(stream);
        drop(screen);
        drop(cutter);
        drop(keys);
        drop(past);
        drop(sites);
    }
}

// Writes an order as a line.
fn write_order(stream: &mut TcpStream, order: &Order) -> io::Result<()> {
    stream.write_all(order_line(order).bytes())?;
    stream.write_all(b"\n")
}

// A connection whose reads and writes end in time.
fn opened(rt: &HostRuntime, host: &str, port: u16) -> io::Result<TcpStream> {
    let stream = TcpStream::connect(rt, (host, port))?;
    stream.set_nodelay(true)?;
    stream.set_read_timeout(Some(Duration::from_millis(WAIT)))?;
    stream.set_write_timeout(Some(Duration::from_secs(5)))?;
    Ok(stream)
}

fn is_pause(kind: ErrorKind) -> bool {
    matches!(
        kind,
        ErrorKind::WouldBlock | ErrorKind::TimedOut | ErrorKind::Interrupted
    )
}

impl Desk {
    /// A screen before its first connection. The error is want of memory.
    pub fn new(rt: &HostRuntime, words: &Words) -> io::Result<Desk> {
        let sites = match fs::read(rt, words.sites) {
            Ok(text) => Some(Sites::of(text)),
            Err(_) => None,
        };
        Ok(Desk {
            host: String::from_str(rt.alloc(), words.host)?,
            port: words.port,
            stream: None,
            screen: Screen::new(),
            cutter: LineCutter::new(LINE),
            keys: KeyReader::new(),
            past: Past::new(rt.alloc()),
            sites,
            shown: Shown::Work,
            size: words.size,
            is_drawn: false,
            is_due: true,
            empty: 0,
        })
    }

    /// Connects, where there is no connection and a second has passed since the last try.
    pub fn connect(&mut self, rt: &HostRuntime) {
        if self.stream.is_some() || !self.is_due {
            return;
        }
        self.is_due = false;
        let Ok(stream) = opened(rt, self.host.as_str(), self.port) else {
            return;
        };
        self.stream = Some(stream);
        self.cutter = LineCutter::new(LINE);
        let reaction = self.screen.made();
        self.react(rt, &reaction);
    }

    // Does what comes of an input.
    fn react(&mut self, rt: &HostRuntime, reaction: &Reaction) {
        self.is_drawn = false;
        if reaction.rung {
            let _ = ring(&mut rt.stdout());
        }
        let Some(order) = &reaction.sent else {
            return;
        };
        let is_sent = match &mut self.stream {
            Some(stream) => write_order(stream, order).is_ok(),
            None => false,
        };
        if !is_sent {
            self.lose();
        }
    }

    // The connection is lost.
    fn lose(&mut self) {
        self.stream = None;
        self.is_drawn = false;
        let _ = self.screen.lost();
    }

    /// Takes what the keyboard has, waiting as long as the terminal's mode says. False where the operator leaves, or the keyboard ends.
    pub fn take_keys(&mut self, rt: &HostRuntime) -> io::Result<bool> {
        let since = Instant::now(rt)?;
        let mut bytes = [0u8; 64];
        let count = rt.stdin().read(&mut bytes)?;
        if count > 0 {
            self.empty = 0;
            return self.take_bytes(rt, &bytes[..count.min(64)]);
        }
        if since.elapsed(rt)?.as_millis() < 5 {
            self.empty = self.empty.saturating_add(1);
        } else {
            self.empty = 0;
        }
        let pressed = self.keys.rest();
        Ok(self.take(rt, pressed)? && self.empty < EMPTY)
    }

    fn take_bytes(&mut self, rt: &HostRuntime, bytes: &[u8]) -> io::Result<bool> {
        for byte in bytes {
            let pressed = self.keys.feed(*byte);
            if !self.take(rt, pressed)? {
                return Ok(false);
            }
        }
        Ok(true)
    }

    // Takes a key, with what it shows drawn before the next one.
    fn take(&mut self, rt: &HostRuntime, pressed: Pressed) -> io::Result<bool> {
        match pressed {
            Pressed::Nothing => {}
            Pressed::Corner { rows, columns } => self.resize(rows, columns),
            Pressed::Key(key) => {
                if leaves(&self.screen, key) {
                    return Ok(false);
                }
                self.press(rt, key);
                self.draw(rt)?;
            }
        }
        Ok(true)
    }

    // A key at work is for the screen; another one goes back to work.
    fn press(&mut self, rt: &HostRuntime, key: u8) {
        let was_at_work = is_at_work(self.shown);
        self.shown = shown_after(self.shown, key, self.screen.session().user.is_some());
        self.is_drawn = false;
        if was_at_work {
            let reaction = self.screen.key(key);
            self.react(rt, &reaction);
        }
    }

    fn resize(&mut self, rows: u16, columns: u16) {
        let size = Size { rows, columns };
        if rows > 0 && columns > 0 && size != self.size {
            self.size = size;
            self.is_drawn = false;
        }
    }

    /// Takes the lines that the desk has sent.
    pub fn take_answers(&mut self, rt: &HostRuntime) {
        for _ in 0..16u8 {
            let mut bytes = [0u8; 4096];
            let count = match &mut self.stream {
                Some(stream) => match stream.read(&mut bytes) {
                    Ok(0) => None,
                    Ok(count) => Some(count),
                    Err(error) if is_pause(error.kind()) => return,
                    Err(_) => None,
                },
                None => return,
            };
            match count {
                Some(count) => self.take_lines(rt, &bytes[..count.min(4096)]),
                None => self.lose(),
            }
        }
    }

    fn take_lines(&mut self, rt: &HostRuntime, bytes: &[u8]) {
        let mut rest = bytes;
        for _ in 0..bytes.len() {
            let (count, cut) = self.cutter.feed(rest);
            rest = &rest[count..];
            if let Some(cut) = cut {
                self.take_line(rt, cut);
            }
        }
    }

    // Takes a line. One that is too long says nothing.
    fn take_line(&mut self, rt: &HostRuntime, cut: LineCut) {
        let is_typed = matches!(self.screen.session().way, Some(Order::Typed(_)));
        let reaction = match cut {
            LineCut::Whole => self.screen.answer(self.cutter.line()),
            LineCut::TooLong => self.screen.answer(b""),
        };
        if let (true, Some(deed)) = (is_typed, self.screen.answered()) {
            self.past.note(deed);
        }
        self.react(rt, &reaction);
    }

    // A second has passed.
    fn second(&mut self, rt: &HostRuntime) {
        let reaction = self.screen.second();
        self.react(rt, &reaction);
    }

    /// So many seconds have passed.
    pub fn pass(&mut self, rt: &HostRuntime, seconds: u64) {
        self.is_due = true;
        for _ in 0..seconds {
            self.second(rt);
        }
        let _ = ask_size(&mut rt.stdout());
    }

    /// Draws the page, where it has changed.
    pub fn draw(&mut self, rt: &HostRuntime) -> io::Result<()> {
        if self.is_drawn {
            return Ok(());
        }
        let moment = match SystemTime::now(rt)?.duration_since(SystemTime::UNIX_EPOCH) {
            Ok(passed) => passed.as_secs(),
            Err(_) => 0,
        };
        let page = Page {
            screen: &self.screen,
            sites: &self.sites,
            past: &self.past,
            shown: self.shown,
            size: self.size,
            moment,
        };
        let mut out = BufWriter::new(rt.alloc(), io::writer(rt))?;
        draw(&mut out, &page)?;
        self.is_drawn = true;
        Ok(())
    }
}
