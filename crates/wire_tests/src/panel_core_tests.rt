// What a panel does, played line by line: frames, answers and fates, worked out by hand, with the check of each frame by another program.
use crate::rows::{Tells, compare, holds, same, same_bytes};
use arc_data::{Blob, Token, Txt};
use panel_core::{Fate, FrameBuf, Heard, Panel, Queued};
use std::alloc::Global;
use std::process::Abort;
use std::test::Fail;

// The first second of the year 10000.
const END: u64 = 253_402_300_800;

// A panel, played by lines: `T` and a moment is a step, `E`, a token and data an event, `R` and a body a reply, `F` and a number the fate
// of an event.
struct Played {
    panel: Panel,
    frame: FrameBuf,
}

// Written out: one call wherever one is dropped, where a derived drop is spelled out at each exit.
impl Drop for Played {
    fn drop(self) {
        let Played { panel, frame } = self;
        drop(panel);
        drop(frame);
    }
}

impl Played {
    fn step(&mut self, text: &str, told: &mut Vec<u8>) -> Result<(), Fail> {
        let now = text.parse()?;
        if now >= END || now < self.panel.moment() {
            return Err("no moment")?;
        }
        if self.panel.step(now, &mut self.frame) {
            let line = self.frame.bytes();
            told.extend_from_slice(line.trim_ascii())?;
        } else {
            told.push(b'-')?;
        }
        Ok(())
    }

    fn queue(&mut self, alloc: Global, text: &str, told: &mut Vec<u8>) -> Result<(), Fail> {
        let (token, data) = text.split_once(' ').ok_or("no token")?;
        let content = Blob::of(alloc, data.as_bytes())?;
        let answer = if self.panel.taken() < 1 << 48 {
            self.panel.queue(token_of(token), content)?
        } else {
            Queued::Full
        };
        let text = format!(in alloc; "{answer:?}")?;
        Ok(told.extend_from_slice(text.as_bytes())?)
    }

    fn hear(&mut self, alloc: Global, text: &str, told: &mut Vec<u8>) -> Result<(), Fail> {
        let heard = self.panel.hear(text.as_bytes());
        let text = format!(in alloc; "{heard:?}")?;
        Ok(told.extend_from_slice(text.as_bytes())?)
    }

    fn fate(&mut self, alloc: Global, text: &str, told: &mut Vec<u8>) -> Result<(), Fail> {
        let event = text.parse()?;
        if event < 1 || event > self.panel.taken() {
            return Err("no event")?;
        }
        let fate = self.panel.fate(event);
        let text = format!(in alloc; "{fate:?}")?;
        Ok(told.extend_from_slice(text.as_bytes())?)
    }
}

fn token_of(text: &str) -> Token {
    if text == "ADM-CID" {
        Token::AdmCid
    } else {
        Token::SiaDcs
    }
}

impl Tells for Played {
    fn tell(&mut self, alloc: Global, input: &str, told: &mut Vec<u8>) -> Result<(), Fail> {
        let (form, text) = input.split_once(' ').ok_or("no line")?;
        match form {
            "T" => self.step(text, told),
            "E" => self.queue(alloc, text, told),
            "R" => self.hear(alloc, text, told),
            _ => self.fate(alloc, text, told),
        }
    }
}

// Plays lines over a panel of an account, a line and a first number.
fn plays(
    rt: &impl Abort,
    alloc: Global,
    setting: (&[u8], &[u8], u16),
    lines: &str,
) -> Result<(), Fail> {
    let (account, line, first) = setting;
    let account = Txt::of(account).ok_or("no account")?;
    let line = Txt::of(line).ok_or("no line")?;
    let panel = Panel::new(alloc, account, line, first).ok_or("no panel")?;
    let frame = FrameBuf::new();
    let mut played = Played { panel, frame };
    let end = compare(rt, alloc, lines, &mut played);
    drop(played);
    end
}

// A message is sent 20 seconds after its last copy, and no more once it is acknowledged.
const ACKED: &str = r##"-;T 1000000000
Taken { event: 1 };E ADM-CID 1131 01 001
Waiting;F 1
2EE70027"ADM-CID"0001L0#1234[#1234|1131 01 001];T 1000000001
InFlight;F 1
-;T 1000000020
2EE70027"ADM-CID"0001L0#1234[#1234|1131 01 001];T 1000000021
Acked { event: 1 };R "ACK"0001L0#1234[]
Acked;F 1
-;T 1000000041
Other;R "ACK"0001L0#1234[]"##;

// A message is given up once more than 240 seconds have gone by.
const GIVEN_UP: &str = r##"Taken { event: 1 };E ADM-CID 1131 01 001
Taken { event: 2 };E ADM-CID 3131 01 001
2EE70027"ADM-CID"0001L0#1234[#1234|1131 01 001];T 1000000000
-;T 1000000240
InFlight;F 1
2E1F0027"ADM-CID"0002L0#1234[#1234|3131 01 001];T 1000000241
GivenUp;F 1
InFlight;F 2
# What acknowledges the one before comes too late.
Other;R "ACK"0001L0#1234[]
GivenUp;F 1
Acked { event: 2 };R "ACK"0002L0#1234[]
Acked;F 2"##;

// Copies at their limits, 9999 and then 1, and replies that acknowledge nothing.
const NUMBERS: &str = r##"Taken { event: 1 };E SIA-DCS Nri1FA129
Taken { event: 2 };E ADM-CID 1131 01 001
Taken { event: 3 };E ADM-CID 1131 01 001
Other;R "ACK"9999L1F#ABC[]
02FB0024"SIA-DCS"9999L1F#ABC[#ABC|Nri1FA129];T 1000000000
-;T 1000000019
02FB0024"SIA-DCS"9999L1F#ABC[#ABC|Nri1FA129];T 1000000020
-;T 1000000039
02FB0024"SIA-DCS"9999L1F#ABC[#ABC|Nri1FA129];T 1000000180
-;T 1000000200
-;T 1000000240
Other;R "ACK"9998L1F#ABC[]
Other;R "ACK"9999L1f#ABC[]
Other;R "ACK"9999L1F#ABD[]
Other;R "ACK"9999R1L1F#ABC[]
Other;R "DUH"9999L1F#ABC[]
Other;R "NAK"9999L1F#ABC[]
Other;R "*ACK"9999L1F#ABC[]
Other;R "ACK"9999L1F#ABC[]x
Other;R "ACK"9999L1F#ABC[
InFlight;F 1
Acked { event: 1 };R "ACK"9999L1F#ABC[]
62E30026"ADM-CID"0001L1F#ABC[#ABC|1131 01 001];T 1000000240
Acked { event: 2 };R "ACK"0001L1F#ABC[]
# The next event waits until 10 seconds after the first copy of the one before.
-;T 1000000249
Waiting;F 3
22E80026"ADM-CID"0002L1F#ABC[#ABC|1131 01 001];T 1000000250
InFlight;F 3"##;

// Data that no message carries.
const DATA: &str = r##"BadData;E ADM-CID 
BadData;E ADM-CID 2131 01 001
BadData;E ADM-CID 1131 01 001]
BadData;E ADM-CID 1131 01 001[
BadData;E SIA-DCS 1131 01 001
BadData;E SIA-DCS Nri1FA129][x
Taken { event: 1 };E SIA-DCS Nri1FA129
Taken { event: 2 };E ADM-CID 6fFf aA 9bC"##;

#[test]
fn panels_send_until_they_are_acknowledged(rt: HostRuntime) -> Result<(), Fail> {
    let alloc = rt.alloc();
    plays(&rt, alloc, (b"1234", b"0", 1), ACKED)?;
    plays(&rt, alloc, (b"1234", b"0", 1), GIVEN_UP)?;
    plays(&rt, alloc, (b"ABC", b"1F", 9999), NUMBERS)?;
    plays(&rt, alloc, (b"1234", b"0", 1), DATA)
}

// Whether a panel may be set up so.
fn is_panel(alloc: Global, account: &[u8], line: &[u8], first: u16) -> bool {
    let (Some(account), Some(line)) = (Txt::of(account), Txt::of(line)) else {
        return false;
    };
    Panel::new(alloc, account, line, first).is_some()
}

#[test]
fn panels_have_accounts_lines_and_numbers_in_their_ranges(rt: HostRuntime) {
    let alloc = rt.alloc();
    holds(&rt, is_panel(alloc, b"012", b"a", 1), "the least");
    let most = is_panel(alloc, b"0123456789ABCDEF", b"09afAF", 9999);
    holds(&rt, most, "the most");
    holds(&rt, !is_panel(alloc, b"12", b"0", 1), "2 digits");
    let long = is_panel(alloc, b"0123456789ABCDEF0", b"0", 1);
    holds(&rt, !long, "17 digits");
    holds(&rt, !is_panel(alloc, b"12a", b"0", 1), "a small letter");
    holds(&rt, !is_panel(alloc, b"12G", b"0", 1), "no digit");
    holds(&rt, !is_panel(alloc, b"123", b"", 1), "no line");
    holds(&rt, !is_panel(alloc, b"123", b"1234567", 1), "7 digits");
    holds(&rt, !is_panel(alloc, b"123", b"g", 1), "no digit of a line");
    holds(&rt, !is_panel(alloc, b"123", b"0", 0), "the number 0");
    holds(
        &rt,
        !is_panel(alloc, b"123", b"0", 10_000),
        "the number 10,000",
    );
}

// Queues an event, of which fewer than 2^48 are there.
fn queue(panel: &mut Panel, alloc: Global, data: &[u8]) -> Result<Queued, Fail> {
    let content = Blob::of(alloc, data)?;
    if panel.taken() >= 1 << 48 {
        return Err("too many events")?;
    }
    Ok(panel.queue(Token::AdmCid, content)?)
}

// A thousand events wait, and no more, until the first of them is sent.
fn fills(rt: &impl Abort, alloc: Global, panel: &mut Panel) -> Result<(), Fail> {
    for event in 1..=1000u64 {
        let queued = queue(panel, alloc, b"1131 01 001")?;
        same(rt, &queued, &Queued::Taken { event }, "an event");
    }
    let full = queue(panel, alloc, b"1131 01 001")?;
    same(rt, &full, &Queued::Full, "the event after 1,000");
    let bad = queue(panel, alloc, b"1131 01 0011")?;
    same(rt, &bad, &Queued::BadData, "bad data where 1,000 wait");
    if panel.moment() == 0 {
        let mut frame = FrameBuf::new();
        holds(rt, panel.step(0, &mut frame), "the first of 1,000");
    }
    let after = queue(panel, alloc, b"1131 01 001")?;
    let want = Queued::Taken { event: 1001 };
    same(rt, &after, &want, "an event where 999 wait");
    Ok(())
}

#[test]
fn a_thousand_events_wait(rt: HostRuntime) -> Result<(), Fail> {
    let alloc = rt.alloc();
    let account = Txt::of(b"1234").ok_or("no account")?;
    let line = Txt::of(b"0").ok_or("no line")?;
    let mut panel = Panel::new(alloc, account, line, 1).ok_or("no panel")?;
    let end = fills(&rt, alloc, &mut panel);
    drop(panel);
    end
}

// SIA data of so many bytes, of which the free text makes up for most.
fn long_data(alloc: Global, bytes: usize) -> Result<Vec<u8>, Fail> {
    let mut data = Vec::new(alloc);
    data.extend_from_slice(b"NFA")?;
    for _ in data.len()..bytes {
        data.push(b'x')?;
    }
    Ok(data)
}

// What comes of SIA data of so many bytes, and how long the frame of its message is.
fn sends_long(alloc: Global, bytes: usize) -> Result<(Queued, usize), Fail> {
    let account = Txt::of(b"0123456789ABCDEF").ok_or("no account")?;
    let line = Txt::of(b"123456").ok_or("no line")?;
    let data = long_data(alloc, bytes)?;
    let mut panel = Panel::new(alloc, account, line, 1).ok_or("no panel")?;
    let queued = match panel.taken() {
        0 => panel.queue(Token::SiaDcs, Blob::of_vec(data)),
        _ => Ok(Queued::Full),
    };
    let mut frame = FrameBuf::new();
    if panel.moment() == 0 {
        let _ = panel.step(0, &mut frame);
    }
    drop(panel);
    Ok((queued?, frame.bytes().len()))
}

#[test]
fn data_has_at_most_3900_bytes(rt: HostRuntime) -> Result<(), Fail> {
    let alloc = rt.alloc();
    let (queued, length) = sends_long(alloc, 3900)?;
    same(&rt, &queued, &Queued::Taken { event: 1 }, "3,900 bytes");
    // 10 bytes of the frame, and 57 of the body besides the data.
    same(&rt, &length, &3967, "its frame");
    let (queued, length) = sends_long(alloc, 3901)?;
    same(&rt, &queued, &Queued::BadData, "3,901 bytes");
    same(&rt, &length, &0, "no frame");
    Ok(())
}
