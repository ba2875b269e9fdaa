// Bodies and their verdicts, read off DC-09, DC-05 and DC-03 by hand. The digits of sealed bodies are openssl's (aes-128-cbc, no
// padding, a start vector of zeros) under the key of the setup; each comment beside them shows the text.
ghost use Rattle.std.specs.Prelude.{◌≡◌, ◌==◌, ◌&&◌, not, true};
ghost use Rattle.std.specs.List.{list_all};
ghost use Rattle.dc09_frame.specs.Frames.{IsBody};

use crate::rows::{Tells, compare};
use accounts::Setup;
use arc_data::{Message, Txt};
use dc09_frame::{FrameBuf, Header};
use dc09_message::{Verdict, Why, verdict};
use std::alloc::{AllocError, Global};
use std::process::Abort;
use std::test::Fail;

const SETUP: &[u8] =
    b"account 1234\naccount ABC\naccount 0123456789abcdef\naccount 5678 key 000102030405060708090A0B0C0D0E0F\n";

// The moment of the stamp `_01:46:40,09-09-2001`.
const NOW: u64 = 1_000_000_000;

// The first second of the year 10000.
const END: u64 = 253_402_300_800;

// Whether the bytes may be the body of a frame.
fn is_body(bytes: &[u8]) -> bool
    ensures { result ≡ true → IsBody bytes.now }
{
    match bytes {
        [first, ..] => *first == b'"' && bytes.len() <= 4095 && is_clean(bytes),
        [] => false,
    }
}

fn is_clean(bytes: &[u8]) -> bool
    ensures { result ≡ list_all (λ b. not (b == 10) && not (b == 13)) bytes.now }
{
    bytes.iter().all(|byte| *byte != b'\n' && *byte != b'\r')
}

// The verdict of a body, at a reading of the clock.
fn verdict_at(alloc: Global, setup: &Setup, now: u64, body: &str) -> Result<Verdict, Fail> {
    let body = body.as_bytes();
    if now >= END || !is_body(body) {
        return Err("no moment or no body")?;
    }
    let mut room = FrameBuf::new();
    Ok(verdict(alloc, setup, now, body, &mut room)?)
}

// A verdict in words.
fn word(verdict: &Verdict) -> &'static str {
    match verdict {
        Verdict::Silence => "silence",
        Verdict::Nak => "nak",
        Verdict::Duh(_, why) => word_of(*why),
        Verdict::Beat(..) => "beat",
        Verdict::Numbered(..) => "numbered",
    }
}

fn word_of(why: Why) -> &'static str {
    match why {
        Why::UnknownToken => "unknown token",
        Why::UnknownAccount => "unknown account",
        Why::PlainButKeyed => "plain but keyed",
        Why::SealedButKeyless => "sealed but keyless",
        Why::NotCipher => "not cipher",
        Why::NoBar => "no bar",
        Why::NoStamp => "no stamp",
        Why::BadBlocks => "bad blocks",
    }
}

// Tells the verdict of a reading of the clock and a body, with a `;` between.
#[derive(Drop)]
struct Verdicts<'a> {
    setup: &'a Setup,
}

impl Tells for Verdicts<'_> {
    fn tell(&mut self, alloc: Global, input: &str, told: &mut Vec<u8>) -> Result<(), Fail> {
        let (now, body) = input.split_once(';').ok_or("no row")?;
        let verdict = verdict_at(alloc, self.setup, now.parse()?, body)?;
        let word = word(&verdict);
        drop(verdict);
        Ok(told.extend_from_slice(word.as_bytes())?)
    }
}

// Headers, tokens and accounts.
const HEADERS: &str = r##"# A header that cannot be read, also before an unknown token.
silence;1000000000;"
silence;1000000000;"adm-cid"0001L0#1234[#1234|1131 01 001]
silence;1000000000;"**ADM-CID"0001L0#1234[#1234|1131 01 001]
silence;1000000000;""0001L0#1234[#1234|1131 01 001]
silence;1000000000;"ADM-CID"001L0#1234[#1234|1131 01 001]
silence;1000000000;"ADM-CID"0001#1234[#1234|1131 01 001]
silence;1000000000;"ADM-CID"0001R1234567L0#1234[#1234|1131 01 001]
silence;1000000000;"ADM-CID"0001L0#12[#12|1131 01 001]
silence;1000000000;"ADM-CID"0001L0#1234
silence;1000000000;"OTHER"0001L0#12G4[|1131 01 001]
# An unknown token, also before an unknown account.
unknown token;1000000000;"OTHER"0001L0#1234[|1131 01 001]
unknown token;1000000000;"ADM-CI"0001L0#9999[|1131 01 001]
unknown token;1000000000;"*SIA-DCSS"0001L0#5678[
unknown token;1000000000;"ACK"0001L7#1234[]
# An unknown account, also before a lacking key and before blocks that cannot be read.
unknown account;1000000000;"ADM-CID"0001L0#01234[|1131 01 001]
unknown account;1000000000;"*NULL"0001L0#9999[
unknown account;1000000000;"SIA-DCS"0001L0#9999[
unknown account;1000000000;"NULL"0001L0#9999[
# A plain message of an account with a key, also where its blocks cannot be read.
plain but keyed;1000000000;"ADM-CID"0001L0#5678[#5678|1131 01 001]
plain but keyed;1000000000;"NULL"0001L0#5678[]
plain but keyed;1000000000;"SIA-DCS"0001L0#5678[
# A sealed message of an account without one, also where its digits are none.
sealed but keyless;1000000000;"*ADM-CID"0001L0#1234[#1234|1131 01 001]
sealed but keyless;1000000000;"*NULL"0001L0#1234[
sealed but keyless;1000000000;"*NULL"0001L0#1234[A06D4B8CCABC8B71C84E08ED2C04D16F621FC72FBD60707D894CDBBF85587E2A"##;

// Blocks, tails and data.
const BLOCKS: &str = r##"# The account in the first block: once, twice, or not at all.
numbered;1000000000;"ADM-CID"0001L0#1234[#1234|1130 01 001]
numbered;1000000000;"ADM-CID"0001L0#1234[|1131 01 001]
numbered;1000000000;"ADM-CID"0001L0#1234[|#1234|1131 01 001]
numbered;1000000000;"ADM-CID"0001L0#1234[#1234|#1234|1131 01 001]
bad blocks;1000000000;"ADM-CID"0001L0#1234[#1235|1131 01 001]
bad blocks;1000000000;"ADM-CID"0001L0#1234[#01234|1131 01 001]
bad blocks;1000000000;"ADM-CID"0001L0#1234[|#ABC|1131 01 001]
bad blocks;1000000000;"ADM-CID"0001L0#1234[#1234|#1235|1131 01 001]
bad blocks;1000000000;"ADM-CID"0001L0#1234[#1234|#1234|#1234|1131 01 001]
bad blocks;1000000000;"ADM-CID"0001L0#1234[#12|1131 01 001]
bad blocks;1000000000;"ADM-CID"0001L0#1234[#12345678901234567|1131 01 001]
bad blocks;1000000000;"ADM-CID"0001L0#1234[#1234|#1234]
bad blocks;1000000000;"ADM-CID"0001L0#1234[#1234]
bad blocks;1000000000;"ADM-CID"0001L0#1234[1131 01 001]
bad blocks;1000000000;"ADM-CID"0001L0#1234[]
# Further blocks, and brackets out of order.
numbered;1000000000;"ADM-CID"0001L0#1234[|1131 01 001][]
numbered;1000000000;"ADM-CID"0001L0#1234[|1131 01 001][#9999|x][M|_]
bad blocks;1000000000;"ADM-CID"0001L0#1234[|1131 01 001
bad blocks;1000000000;"ADM-CID"0001L0#1234[
bad blocks;1000000000;"ADM-CID"0001L0#1234[|1131 01 001]]
bad blocks;1000000000;"ADM-CID"0001L0#1234[|1131 01 001][
bad blocks;1000000000;"ADM-CID"0001L0#1234[|1131 01 001][x
bad blocks;1000000000;"ADM-CID"0001L0#1234[|1131 01 001][x[y]]
bad blocks;1000000000;"ADM-CID"0001L0#1234[|1131 01 001]x[y]
bad blocks;1000000000;"ADM-CID"0001L0#1234[|1131[01 001]
# A tail, which is not read.
numbered;1000000000;"ADM-CID"0001L0#1234[|1131 01 001]_01:46:40,09-09-2001
numbered;1000000000;"ADM-CID"0001L0#1234[|1131 01 001][x]_00:00:00,01-01-1970
numbered;1000000000;"ADM-CID"0001L0#1234[|1131 01 001]_][[]]__[x]y[]z[[]]]
bad blocks;1000000000;"ADM-CID"0001L0#1234[|1131 01 001]_01:46:40,09-09-200
bad blocks;1000000000;"ADM-CID"0001L0#1234[|1131 01 001]_01:46:40,09-09-20011
bad blocks;1000000000;"ADM-CID"0001L0#1234[|1131 01 001]_
bad blocks;1000000000;"ADM-CID"0001L0#1234[|1131 01 001]x01:46:40,09-09-2001
bad blocks;1000000000;"ADM-CID"0001L0#1234[|1131 01 001][01:46:40,09-09-2001
# The data.
numbered;1000000000;"ADM-CID"0001L0#1234[|6fFf aA 9bC]
bad blocks;1000000000;"ADM-CID"0001L0#1234[|2131 01 001]
bad blocks;1000000000;"ADM-CID"0001L0#1234[|1131 01 0001]
bad blocks;1000000000;"ADM-CID"0001L0#1234[|Nri1FA129]
numbered;1000000000;"SIA-DCS"0001L0#1234[#1234|Nri1FA129]
numbered;1000000000;"SIA-DCS"0001L0#1234[|#1234|Nri1FA129][S123Main St., 55123]
bad blocks;1000000000;"SIA-DCS"0001L0#1234[|1131 01 001]
bad blocks;1000000000;"SIA-DCS"0001L0#1234[|]
bad blocks;1000000000;"SIA-DCS"0001L0#1234[|Nri1]
numbered;1000000000;"SIA-DCS"0001L0#1234[|NFA1/BA2/TA3/WA4/YC5/AT6/GA7/PA8]
bad blocks;1000000000;"SIA-DCS"0001L0#1234[|NFA1/BA2/TA3/WA4/YC5/AT6/GA7/PA8/MA9]
# Of a heartbeat the brackets and the tail alone.
beat;1000000000;"NULL"0001L0#1234[]
beat;1000000000;"NULL"0001L0#1234[#9999|x][y]
beat;1000000000;"NULL"0001L0#1234[]_01:46:40,09-09-2001
beat;1000000000;"NULL"0001L0#1234[x][y]_[][][][][][][][][]]
bad blocks;1000000000;"NULL"0001L0#1234[
bad blocks;1000000000;"NULL"0001L0#1234[[]
bad blocks;1000000000;"NULL"0001L0#1234[]x
bad blocks;1000000000;"NULL"0001L0#1234[][x
bad blocks;1000000000;"NULL"0001L0#1234[]_01:46:40,09-09-200"##;

// Sealed bodies.
const SEALED: &str = r##"# No cipher digits.
not cipher;1000000000;"*ADM-CID"0001L0#5678[
not cipher;1000000000;"*ADM-CID"0001L0#5678[|1131 01 001]
not cipher;1000000000;"*NULL"0001L0#5678[A2721EA32E74E992CC9F6A52C916F10
not cipher;1000000000;"*NULL"0001L0#5678[A2721EA32E74E992CC9F6A52C916F1029
not cipher;1000000000;"*NULL"0001L0#5678[A2721EA32E74E992CC9F6A52C916F10G
# QWERTYUIOPAS_01:46:40,09-09-2001, and no stamp either: QWERTYUIOPASDFGHQWERTYUIOPASDFGH
no bar;1000000000;"*ADM-CID"0001L0#5678[A2721EA32E74E992CC9F6A52C916F10297EDA75F763271E5142E7D7B73217F50
no bar;1000000000;"*NULL"0001L0#5678[41010A68F223766398C1A68F9093409BA6391D4CF53DF8F05CF74382FD14F607
# QWERTYUIOPASDFG|1131 01 001]_01:46:40,13-09-2001, and QWERTYUIOPASD|]01:46:40,09-09-20
no stamp;1000000000;"*ADM-CID"0001L0#5678[3F1E0DF5E62BED2CA66E4FBCF2EB27F85D7B6E322BCFA631E3AA1E16523E72D952527D868A516758DE533FE6AF2E84E0
no stamp;1000000000;"*NULL"0001L0#5678[5EB5C0F3BE2B89A23F75BB123629F937042357677E201623830892F1DACD824A
# The stamp is 41 and 40 seconds older and 21 and 20 seconds newer than the clock.
nak;1000000041;"*ADM-CID"0001L0#5678[3F1E0DF5E62BED2CA66E4FBCF2EB27F85D7B6E322BCFA631E3AA1E16523E72D9EABA70A0709354F30DE4FA4333503BC9
numbered;1000000040;"*ADM-CID"0001L0#5678[3F1E0DF5E62BED2CA66E4FBCF2EB27F85D7B6E322BCFA631E3AA1E16523E72D9EABA70A0709354F30DE4FA4333503BC9
nak;999999979;"*ADM-CID"0001L0#5678[3F1E0DF5E62BED2CA66E4FBCF2EB27F85D7B6E322BCFA631E3AA1E16523E72D9EABA70A0709354F30DE4FA4333503BC9
numbered;999999980;"*ADM-CID"0001L0#5678[3F1E0DF5E62BED2CA66E4FBCF2EB27F85D7B6E322BCFA631E3AA1E16523E72D9EABA70A0709354F30DE4FA4333503BC9
# Blocks that cannot be read.
nak;1000000041;"*ADM-CID"0001L0#5678[2123BAD310425DB519684202736FC86B8FC01ED15512F1B5372EE86F420E2DD7
bad blocks;1000000000;"*ADM-CID"0001L0#5678[2123BAD310425DB519684202736FC86B8FC01ED15512F1B5372EE86F420E2DD7
bad blocks;1000000000;"*NULL"0001L0#5678[2123BAD310425DB519684202736FC86B8FC01ED15512F1B5372EE86F420E2DD7
# A tail: QWERTYUIOPA|1131 01 001]_01:46:40,09-09-2001_01:46:40,09-09-2001, and QWERTY|]_01:46:40,09-09-2001_01:46:40,09-09-2001
bad blocks;1000000000;"*ADM-CID"0001L0#5678[FDF8468800C87516CEC3521942DBC7A885DB1CECCB5EA36D45CCC16151ED9A4369C5792DD3CCFD87BD537E05E5804ABDE4D8BA50BA571650057A8796FE3E0261
bad blocks;1000000000;"*NULL"0001L0#5678[898E6B5EA7AB3CD02D2484074BCB41E1EC6467D936E333533FF6400E62896F3A53F32F93AFC2F9CEE71D8928ABF4A9ED
# QWERTYUIO|#1234|1131 01 001]_01:46:40,09-09-2001, and QWERTYUIOPAS|AB|1131 01 001]_01:46:40,09-09-2001
bad blocks;1000000000;"*ADM-CID"0001L0#5678[550BCE96B3F1DFA8F203AAEC69C6D2D5BB9CCA1F73EFAA093E5C7408A20E459FC322270ACC43C7D91D1E97B7AF1033E1
bad blocks;1000000000;"*ADM-CID"0001L0#5678[E5FCB249E857FCD7149048E28EEE83E91294E07CEC4514B12661D7788F90DB5A84C707A65D81A544ABC05B83BD869082
bad blocks;1000000000;"*SIA-DCS"0001L0#5678[3F1E0DF5E62BED2CA66E4FBCF2EB27F85D7B6E322BCFA631E3AA1E16523E72D9EABA70A0709354F30DE4FA4333503BC9
# QWERTYUIOP|]_01:46:40,09-09-2001 in lower case, and QWE|#1|x][y]_01:46:40,09-09-2001
beat;1000000000;"*NULL"0001L0#5678[a06d4b8ccabc8b71c84e08ed2c04d16f621fc72fbd60707d894cdbbf85587e2a
beat;1000000000;"*NULL"0001L0#5678[2F0141E08739668596C62FF5D3B8A6EC03A4F739887DC9535C10BA76AED4C7CD
# QWERTY|#5678|Nri1FA129][S123Main St., 55123]_01:46:40,09-09-2001
numbered;1000000000;"*SIA-DCS"0001L0#5678[41CAD6731EC9C586E34C7DB8F4378E99EF67EB5E2D8A810389192633AE053BD263C2569F7723F67DA58C52D849BF7349E507428125ADEEB1C4C184F6BF793EF5"##;

// Messages: the sequence and the token; the account and the line of the header; the account, the `R` field, the `L` field and the
// content of the message; and behind a `;` the body.
// Of a heartbeat the sequence, and the account of the header and in capitals.
const MESSAGES: &str = r##"0000 beat/aBc/ABC;"NULL"0000L7#aBc[]
1 AdmCid/1234/0/1234//0/1130 01 001;"ADM-CID"0001L0#1234[#1234|1130 01 001]
9876 AdmCid/aBc/1/ABC/12aBcD/1/3401 0a 00F;"ADM-CID"9876R12aBcDL1#aBc[#AbC|#abc|3401 0a 00F]_01:46:40,09-09-2001
9999 SiaDcs/0123456789ABCDEf/123456/0123456789ABCDEF//123456/NFA129][S123Main St., 55123;"SIA-DCS"9999L123456#0123456789ABCDEf[#0123456789abcdeF|NFA129][S123Main St., 55123]
# |#5678|1131 01 001][V123456]_01:46:40,09-09-2001
20 AdmCid/5678/0/5678//0/1131 01 001][V123456;"*ADM-CID"0020L0#5678[ED3D2B1596C7C90850854CCBA133135975F4C5B248AB9B024DB7FB4E7180E63857570B0FC44A1B6C19DF194E44981EB0"##;

// Tells the message or the heartbeat of a body.
#[derive(Drop)]
struct Messages<'a> {
    setup: &'a Setup,
}

impl Tells for Messages<'_> {
    fn tell(&mut self, alloc: Global, input: &str, told: &mut Vec<u8>) -> Result<(), Fail> {
        let verdict = verdict_at(alloc, self.setup, NOW, input)?;
        let end = tell_verdict(alloc, &verdict, told);
        drop(verdict);
        Ok(end?)
    }
}

fn tell_verdict(alloc: Global, verdict: &Verdict, told: &mut Vec<u8>) -> Result<(), AllocError> {
    match verdict {
        Verdict::Numbered(header, message) => tell_message(alloc, header, message, told),
        Verdict::Beat(header, account) => {
            told.extend_from_slice(&header.seq)?;
            told.extend_from_slice(b" beat")?;
            add(told, header.account.bytes())?;
            add(told, account.bytes())
        }
        _ => Ok(()),
    }
}

fn tell_message(
    alloc: Global,
    header: &Header,
    message: &Message,
    told: &mut Vec<u8>,
) -> Result<(), AllocError> {
    let begin = format!(in alloc; "{} {:?}", message.seq, message.token)?;
    told.extend_from_slice(begin.as_bytes())?;
    drop(begin);
    add(told, header.account.bytes())?;
    add(told, header.line.bytes())?;
    add(told, message.account.bytes())?;
    add(told, bytes_of(&message.receiver))?;
    add(told, message.line.bytes())?;
    add(told, message.content.bytes())
}

fn add(told: &mut Vec<u8>, field: &[u8]) -> Result<(), AllocError> {
    told.push(b'/')?;
    told.extend_from_slice(field)
}

fn bytes_of(receiver: &Option<Txt>) -> &[u8] {
    match receiver {
        Some(digits) => digits.bytes(),
        None => &[],
    }
}

fn compare_all(rt: &impl Abort, alloc: Global, setup: &Setup) -> Result<(), Fail> {
    let mut verdicts = Verdicts { setup };
    compare(rt, alloc, HEADERS, &mut verdicts)?;
    compare(rt, alloc, BLOCKS, &mut verdicts)?;
    compare(rt, alloc, SEALED, &mut verdicts)?;
    compare(rt, alloc, MESSAGES, &mut Messages { setup })
}

#[test]
fn bodies_have_their_verdicts(rt: HostRuntime) -> Result<(), Fail> {
    let setup = Setup::read(rt.alloc(), SETUP)?;
    let end = compare_all(&rt, rt.alloc(), &setup);
    drop(setup);
    end
}
