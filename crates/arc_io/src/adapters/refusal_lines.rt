// Lines on standard error about messages that were refused.
use crate::Refusal;
use arc_data::Txt;
use libc::net::{POLLOUT, poll};
use libc::types::pollfd;
use std::fmt::{self, Display, Formatter};
use std::net::SocketAddr;
use std::time;
use std::time::Duration;

// For how many seconds nothing more is said, once it was.
const QUIET: u64 = 1;

/// Says on standard error what was refused: at most a line in a second of the machine's running, with the number of those that were left
/// out since the last. It takes no memory. What standard error does not take, or not at once, is left out, and no call fails of it.
#[derive(Clone, Copy)]
pub struct RefusalLines {
    // How long the machine runs when the next line may come.
    due: Duration,
    left_out: u64,
}

impl RefusalLines {
    /// Nothing was said yet, and nothing left out.
    pub fn new() -> RefusalLines {
        RefusalLines {
            due: Duration::ZERO,
            left_out: 0,
        }
    }

    /// Says that a message of this account was refused, of a peer where there is one.
    pub fn tell<R: time::Clock + Eprint>(
        &mut self,
        rt: &R,
        account: &Txt,
        peer: Option<SocketAddr>,
        why: Refusal,
    ) {
        let now = rt.monotonic().unwrap_or(Duration::ZERO);
        if now < self.due || !takes_a_line() {
            self.left_out = self.left_out.saturating_add(1);
            return;
        }
        let line = Line {
            account: *account,
            peer,
            why,
            left_out: self.left_out,
        };
        self.due = now.saturating_add(Duration::from_secs(QUIET));
        self.left_out = match rt.eprintln(line) {
            Ok(()) => 0,
            Err(_) => self.left_out.saturating_add(1),
        };
    }
}

// Whether standard error takes a line at once. A pipe that nobody reads would hold the session.
fn takes_a_line() -> bool {
    let mut asked = [pollfd {
        fd: libc::STDERR_FILENO,
        events: POLLOUT,
        revents: 0,
    }];
    poll(&mut asked, 0) == 1
}

// What is said of one refusal.
#[derive(Clone, Copy)]
struct Line {
    account: Txt,
    peer: Option<SocketAddr>,
    why: Refusal,
    // How many were left out before it.
    left_out: u64,
}

impl Display for Line {
    fn fmt<W: fmt::Write>(&self, f: &mut Formatter<W>) -> fmt::Result {
        f.write_str("refused: account ")?;
        write_account(&self.account, f)?;
        if let Some(peer) = self.peer {
            write!(f, " at {peer}")?;
        }
        write!(f, ": {}", words(self.why))?;
        if self.left_out > 0 {
            write!(f, " ({} more left out)", self.left_out)?;
        }
        Ok(())
    }
}

// An account has letters and digits alone. Any other is spelled by the codes of its bytes, so that no byte of a peer's gets to a terminal.
fn write_account<W: fmt::Write>(account: &Txt, f: &mut Formatter<W>) -> fmt::Result {
    let is_plain = account.bytes().iter().all(u8::is_ascii_alphanumeric);
    for byte in account.bytes() {
        if is_plain {
            write!(f, "{}", char::from(*byte))?;
        } else {
            write!(f, "{byte:02x}")?;
        }
    }
    Ok(())
}

// A refusal in the words of those who set panels up.
fn words(why: Refusal) -> &'static str {
    match why {
        Refusal::UnknownToken => "unknown token",
        Refusal::UnknownAccount => "unknown account",
        Refusal::PlainButKeyed => "not encrypted, but the account has a key",
        Refusal::SealedButKeyless => "encrypted, but the account has no key",
        Refusal::NotCipher => "encrypted, but not as blocks of digits",
        Refusal::WrongKey => "wrong key or broken encryption",
        Refusal::StaleStamp => "stale stamp",
        Refusal::UnreadableData => "unreadable data",
    }
}
