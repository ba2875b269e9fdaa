// What no clause says: lines of each form at their limits, and lines of none.
use crate::rows::{Tells, compare, same, same_bytes};
use script_lines::{MOST_DIGITS, ScriptLine, is_skipped, spelled};
use std::alloc::{AllocError, Global};
use std::test::Fail;

// What lines ask for; a `-` stands for nothing.
const LINES: &str = "\
time 0;T 0
time 253402300799;T 253402300799
feed 16 0aFF;L 16 0aFF
message 1 \"A B;M 1 \"A B
command 8 ;D 8 
reopen;X
-;T
-;T 
-;T 01
-;T +1
-;T -1
-;T 1 2
-;T 253402300800
-;T 18446744073709551616
-;t 1
-; T 1
-;L
-;L 1
-;L 1 
-;L 1 0
-;L 1 0a0
-;L 1 0g
-;L 1 0a 0b
-;L 0 0a
-;L 17 0a
-;L 01 0a
-;L  1 0a
-;M 1
-;M 1 
-;M 1 x
-;M 0 \"x
-;M 17 \"x
-;D
-;D 1
-;D 0 list
-;D 9 list
-;D 1list
-;x
-;X 
-;X 1
-; X
-;Y
skipped;
skipped;#
skipped;# T 1
-; 
time 1;T 1
-; #";

// Tells what a line asks for, where it is not skipped.
#[derive(Drop)]
struct Lines {}

impl Tells for Lines {
    fn tell(&mut self, alloc: Global, input: &str, told: &mut Vec<u8>) -> Result<(), Fail> {
        let line = input.as_bytes();
        if is_skipped(line) {
            return Ok(told.extend_from_slice(b"skipped")?);
        }
        match ScriptLine::read(line) {
            None => Ok(told.push(b'-')?),
            Some(asked) => Ok(tell_asked(alloc, asked, told)?),
        }
    }
}

fn tell_asked(alloc: Global, asked: ScriptLine, told: &mut Vec<u8>) -> Result<(), AllocError> {
    match asked {
        ScriptLine::Time { moment } => {
            let text = format!(in alloc; "time {moment}")?;
            told.extend_from_slice(text.as_bytes())
        }
        ScriptLine::Feed { line, digits } => tell_numbered(alloc, "feed", line, digits, told),
        ScriptLine::Message { line, body } => tell_numbered(alloc, "message", line, body, told),
        ScriptLine::Command { desk, text } => tell_numbered(alloc, "command", desk, text, told),
        ScriptLine::Reopen => told.extend_from_slice(b"reopen"),
    }
}

fn tell_numbered(
    alloc: Global,
    word: &str,
    number: usize,
    bytes: &[u8],
    told: &mut Vec<u8>,
) -> Result<(), AllocError> {
    let text = format!(in alloc; "{word} {number} ")?;
    told.extend_from_slice(text.as_bytes())?;
    told.extend_from_slice(bytes)
}

#[test]
fn lines_are_read(rt: HostRuntime) -> Result<(), Fail> {
    compare(&rt, rt.alloc(), LINES, &mut Lines {})
}

#[test]
fn a_text_has_at_most_a_thousand_bytes(rt: HostRuntime) {
    let mut line = [b'x'; 1005];
    line[..4].copy_from_slice(b"D 1 ");
    same(&rt, &ScriptLine::read(&line), &None, "1,001 bytes");
    let text = &line[4..1004];
    let want = Some(ScriptLine::Command { desk: 1, text });
    same(&rt, &ScriptLine::read(&line[..1004]), &want, "1,000 bytes");
}

#[test]
fn a_body_has_at_most_4095_bytes(rt: HostRuntime) {
    let mut line = [b'x'; 4100];
    line[..5].copy_from_slice(b"M 2 \"");
    same(&rt, &ScriptLine::read(&line), &None, "4,096 bytes");
    let body = &line[4..4099];
    let want = Some(ScriptLine::Message { line: 2, body });
    same(&rt, &ScriptLine::read(&line[..4099]), &want, "4,095 bytes");
}

#[test]
fn digits_spell_bytes(rt: HostRuntime) {
    let mut bytes = [0; MOST_DIGITS / 2];
    let told = spelled(b"00fF9a", &mut bytes);
    same_bytes(&rt, told, b"\x00\xFF\x9A", "six digits");
}
