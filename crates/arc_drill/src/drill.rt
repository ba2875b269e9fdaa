// The port of a drill.
ghost use Rattle.std.specs.Prelude.{◌≡◌, ◌≤◌, ◌+◌, ◌++◌, [], length, drop, take, min, IsOk};
ghost use Rattle.arc_data.specs.Moments.{IsMoment};
ghost use Rattle.arc_drill.specs.Places.{number_of, last_of};

use crate::lines::Lines;
use crate::place::{Next, put_part};
use crate::texts::BEGINNING;
use arc_io::{Clock, Ends, Failed, Noise, Port, Sink, Source};

/// A port whose input is the script of a drill. It makes a part of the script when it is read, keeps no more than that, and takes no
/// memory. It never fails; what is written to it is dropped, its clock stands at 1,000,000,000, and its noise is 0.
#[derive(Drop)]
pub struct Drill {
    messages: u32,
    next: Next,
    // The part that is being read, and how much of it was read.
    lines: Lines,
    at: usize,
    ended: bool,
    ghost few: { messages ≤ 100_000 },
    ghost from_one: { 1 ≤ number_of next },
    ghost to_last: { number_of next ≤ last_of messages next },
    ghost within: { at ≤ length lines },
}

impl Drill {
    ghost use Rattle.std.specs.Prelude.{Some};
    ghost use Rattle.arc_io.specs.Seen.{untold};
    ghost use Rattle.arc_drill.specs.Texts.{drill_text, drill_setup};
    ghost use Rattle.arc_drill.specs.Drills.{drill_left, drill_seen};

    /// A drill of so many messages.
    pub fn new(n: u32) -> Drill
        requires some { 1 ≤ n }
        requires few { n ≤ 100_000 }
        ensures { drill_seen result ≡ record untold { left = Some (drill_text n) } }
    {
        Drill {
            messages: n,
            next: Next::Beginning,
            lines: Lines::new(),
            at: 0,
            ended: false,
        }
    }

    /// The setup of each drill: ten accounts and an operator.
    pub fn setup_text() -> &'static [u8]
        ensures { result.now ≡ drill_setup }
    {
        b"account 1000
account 1001
account 1002
account 1003
account 1004
account 1005
account 1006
account 1007
account 1008
account 1009
operator drill 1234
"
    }

    // Makes the next part, where the last one was read. At the end there is none.
    fn go_on(&mut self)
        ensures same { drill_left self.new ≡ drill_left self.old }
        ensures more { drop self.new.at self.new.lines ≡ [] → drill_left self.new ≡ [] }
        ensures ended { self.new.ended ≡ self.old.ended }
    {
        if self.at < self.lines.bytes().len() {
            return;
        }
        if let Some(next) = put_part(&mut self.lines, self.messages, self.next) {
            self.next = next;
            self.at = 0;
        }
    }
}

impl Ends for Drill {
    ghost use Rattle.arc_drill.specs.Drills.{drill_seen};

    ghost seen = { drill_seen };
}

impl Source for Drill {
    ghost use Rattle.std.specs.Io.{ReadsAtMost};
    ghost use Rattle.arc_io.specs.Told.{Reads};
    ghost use Rattle.arc_drill.specs.Drills.{drill_seen};

    /// Gives the next bytes of the script, at most those of a few lines that belong together. It never fails.
    fn read(&mut self, buf: &mut [u8]) -> Result<usize, Failed>
        ensures bound { ReadsAtMost result buf.new }
        ensures told { Reads (drill_seen self.old) (drill_seen self.new) result buf.new }
        ensures never { IsOk result }
    {
        self.go_on();
        let count = read_from(self.lines.bytes(), self.at, buf);
        self.at += count;
        if count == 0 && !buf.is_empty() {
            self.ended = true;
        }
        Ok(count)
    }

    fn read_faults(&self) -> u64 {
        0
    }
}

// Reads the bytes from a place on, and answers how many.
fn read_from(bytes: &[u8], at: usize, buf: &mut [u8]) -> usize
    requires { at ≤ length bytes.now }
    ensures within { at + result ≤ length bytes.now }
    ensures count { result ≡ min (length buf.new) (length (drop at bytes.now)) }
    ensures given { drop at bytes.now ≡ take result buf.new ++ drop (at + result) bytes.now }
{
    let rest = &bytes[at..];
    let count = rest.len().min(buf.len());
    buf[..count].copy_from_slice(&rest[..count]);
    count
}

impl Sink for Drill {
    ghost use Rattle.std.specs.Prelude.{Ok, IfOk};
    ghost use Rattle.std.specs.Io.{WritesAtMost};
    ghost use Rattle.arc_io.specs.Told.{Writes};
    ghost use Rattle.arc_drill.specs.Drills.{drill_seen};

    /// Takes all of the bytes, and drops them. It never fails.
    fn write(&mut self, bytes: &[u8]) -> Result<usize, Failed>
        ensures bound { WritesAtMost result bytes.now }
        ensures some { IfOk result (λ count. count ≡ 0 → bytes.now ≡ []) }
        ensures told { Writes (drill_seen self.old) (drill_seen self.new) result bytes.now }
        ensures never { result ≡ Ok (length bytes.now) }
        ensures same { self.new ≡ self.old }
    {
        Ok(bytes.len())
    }

    fn write_faults(&self) -> u64 {
        0
    }
}

impl Clock for Drill {
    ghost use Rattle.std.specs.Prelude.{◌<◌};
    ghost use Rattle.arc_io.specs.Told.{after_reading};
    ghost use Rattle.arc_drill.specs.Drills.{drill_seen};

    fn now(&mut self) -> u64
        ensures bound { IsMoment result }
        ensures told { drill_seen self.new ≡ after_reading result (drill_seen self.old) }
        ensures exact { result ≡ 1_000_000_000 }
        ensures same { self.new ≡ self.old }
    {
        BEGINNING
    }
}

impl Noise for Drill {
    ghost use Rattle.std.specs.Prelude.{replicate};
    ghost use Rattle.arc_io.specs.Told.{after_noise};
    ghost use Rattle.arc_drill.specs.Drills.{drill_seen};

    fn ten(&mut self) -> [u8; 10]
        ensures told { drill_seen self.new ≡ after_noise result (drill_seen self.old) }
        ensures exact { result ≡ replicate 10 0 }
        ensures same { self.new ≡ self.old }
    {
        [0; 10]
    }
}

impl Port for Drill {}
