// Setups and their faults, from the grammar of setup lines and its table of faults.
use crate::checks::{cut, found, holds, number, same, same_bytes, same_found, same_text, short};
use accounts::{LineKind, Setup, SetupFault};
use arc_data::Txt;
use std::alloc::Global;
use std::process::Abort;

// What is told of a text: how many accounts it has, or its fault with its line and the earlier line or the limit. `/` stands for
// a line feed, `^` for a carriage return.
const TEXTS: &str = "\
accounts 0 0;
accounts 0 0;//# a remark/#^/^/#account 1234
accounts 0 0;operator ann 1234/plan * fire fire/
accounts 1 0;account 1234
accounts 1 0;account 1234^/
accounts 1 0;account 0123456789abcdeF/
accounts 2 0;account bbb/# next//account AAA
form 1 0;account 1234^
form 1 0;^
form 1 0;account 1234^^/
form 1 0;account 12/
form 1 0;account 12345678901234567/
form 1 0;account 12g4/
form 1 0;account  1234/
form 1 0;account 1234 /
form 1 0; account 1234/
form 1 0;Account 1234/
form 1 0;account/
form 1 0;account /
form 1 0;account\t1234/
form 1 0;account1234/
form 1 0; # no remark/
form 1 0; /
form 3 0;# one//hours 1234/
form 3 0;account 1234//x/account 1234/
same 2 1;account 1234/account 1234/x/
same 5 2;# a/account 123//# b/account 123/
same 3 1;account ABC^/account 123^/account aBc beat 5^/
missing 1 0;hours 1234 mon 08:00 18:00/account 1234/
missing 2 0;account 123/plan 1234 fire note/x
accounts 1 0;account 123 beat 1 offset -840
accounts 1 0;account 123 beat 1000000
accounts 1 0;account 123 offset 840
accounts 1 0;account 123 offset 0
form 1 0;account 123 beat 0
form 1 0;account 123 beat 1000001
form 1 0;account 123 beat 01
form 1 0;account 123 beat +1
form 1 0;account 123 beat 18446744073709551617
form 1 0;account 123 beat
form 1 0;account 123 beat \n\
form 1 0;account 123 beat 5 beat 5
form 1 0;account 123 offset 841
form 1 0;account 123 offset -841
form 1 0;account 123 offset -0
form 1 0;account 123 offset 00
form 1 0;account 123 offset -01
form 1 0;account 123 offset --1
form 1 0;account 123 offset -
form 1 0;account 123 offset 1 beat 1
form 1 0;account 123 Beat 1
accounts 1 0;account 123 zone EST5EDT,M3.2.0,M11.1.0
accounts 1 0;account 123 beat 5 zone IST-5:30
accounts 1 0;account 123 zone <AAAAAAAAAAAAAAA>-24:59:59<BBBBBBBBBBBBBBB>-24:59:59,J99,M10.5.0
form 1 0;account 123 zone <AAAAAAAAAAAAAAA>-24:59:59<BBBBBBBBBBBBBBB>-24:59:59,J100,M10.5.0
zone 1 0;account 123 zone !
zone 1 0;account 123 zone CET-1CEST
zone 1 0;account 123 zone 0000000000000000000000000000000000000000000000000000000000000000
form 1 0;account 123 zone 00000000000000000000000000000000000000000000000000000000000000000
form 1 0;account 123 zone
form 1 0;account 123 zone \n\
form 1 0;account 123 zone UTC0 offset 60
form 1 0;account 123 offset 60 zone UTC0
form 1 0;account 123 zone UTC0 UTC0
form 1 0;account 123 zone UTC0 beat 5
form 1 0;account 123 beat 0 zone !
zone 3 0;account 123//account 123 zone !/x
same 3 1;account 123//account 123 zone UTC0/x
accounts 1 0;account 123 key 000102030405060708090a0b0c0d0e0f beat 5 offset 5
form 1 0;account 123 key 000102030405060708090a0b0c0d0e0
form 1 0;account 123 key 000102030405060708090a0b0c0d0e0f1
form 1 0;account 123 key 000102030405060708090a0b0c0d0e0f10111213
form 1 0;account 123 key 000102030405060708090a0b0c0d0e0g
form 1 0;account 123 key  000102030405060708090a0b0c0d0e0f
form 1 0;account 123 key
form 1 0;account 123 000102030405060708090a0b0c0d0e0f
form 1 0;account 123 beat 5 key 000102030405060708090a0b0c0d0e0f
accounts 1 0;account 123/hours 123 sun 00:00 24:00
accounts 1 0;account abc/hours ABC mon 23:59 24:00/hours aBc mon 23:59 24:00
form 2 0;account 123/hours 123 mon 24:00 24:00
form 2 0;account 123/hours 123 mon 00:00 24:01
form 2 0;account 123/hours 123 mon 08:00 08:00
form 2 0;account 123/hours 123 mon 8:00 09:00
form 2 0;account 123/hours 123 mon 08:60 09:00
form 2 0;account 123/hours 123 mon 08.00 09:00
form 2 0;account 123/hours 123 Mon 08:00 09:00
form 2 0;account 123/hours 123 mon 08:00
form 2 0;account 123/hours 12 mon 08:00 09:00
missing 2 0;account 123/hours 124 mon 08:00 09:00
accounts 1 0;account 123/keyholder 123 A.b_c-9 123
accounts 1 0;account 123/keyholder 123 a +12345678901234567890
accounts 1 0;account 123/keyholder 123 abcdefghijklmnop 123/keyholder 123 A 123
accounts 2 0;account 123/account 124/keyholder 123 a 123/keyholder 124 a 123
form 2 0;account 123/keyholder 123 a 12
form 2 0;account 123/keyholder 123 a +12
form 2 0;account 123/keyholder 123 a 123456789012345678901
form 2 0;account 123/keyholder 123 a ++123
form 2 0;account 123/keyholder 123 abcdefghijklmnopq 123
form 2 0;account 123/keyholder 123 a@b 123
form 2 0;account 123/keyholder 123 a
missing 2 0;account 123/keyholder 12a a 123
same 4 2;account 123/keyholder 123 a 123//keyholder 123 a 456
accounts 0 0;plan * fire premises holders police fire ambulance guard note
accounts 1 0;account 123/plan * fire note/plan 123 fire note/plan 123 gas note
accounts 0 0;plan * unlisted note@closed/plan * irregular holders/plan * lateclose note
form 1 0;plan * fire
form 1 0;plan * test note
form 1 0;plan * openclose note
form 1 0;plan * fire note note
form 1 0;plan * fire note police note@closed
form 1 0;plan * fire note@open
form 1 0;plan * fire @closed
form 1 0;plan ** fire note
form 1 0;plan fire note
missing 1 0;plan 123 fire note
same 3 1;plan * fire note//plan * fire police
same 4 2;account abc/plan abc gas note/plan * gas note/plan ABC gas guard
accounts 0 0;operator a 1234/operator A 12345678
form 1 0;operator a 123
form 1 0;operator a 123456789
form 1 0;operator a 12a4
form 1 0;operator a
form 1 0;operator abcdefghijklmnopq 1234
same 3 1;operator a 1234/operator b 1234/operator a 4321
accounts 0 0;lapse 60
accounts 0 0;lapse 86400/
accounts 1 0;account 123/lapse 900^/operator a 1234
form 1 0;lapse 59
form 1 0;lapse 86401
form 1 0;lapse 060
form 1 0;lapse +60
form 1 0;lapse 18446744073709551676
form 1 0;lapse 60s
form 1 0;lapse 60 60
form 1 0;lapse 60 \n\
form 1 0;lapse  60
form 1 0;lapse
form 1 0;lapse \n\
form 1 0;Lapse 60
form 2 0;lapse 60/lapse 59
same 2 1;lapse 60/lapse 60
same 4 1;lapse 60/account 123//lapse 86400";

// What is told of a text that has a beginning, a part so many times, and an end. In the part `%` stands for 1000, 1001 and so on.
const LONG_TEXTS: &str = "\
accounts 2000 0;;account %/;2000;operator a 1234
many 2001 2000;;account %/;2000;account abc
same 2001 1000;;account %/;2000;account 1999
accounts 1 0;;operator o% 1234/;64;account abc
many 65 64;;operator o% 1234/;64;operator a 1234
same 65 64;;operator o% 1234/;64;operator o1063 1234
accounts 2 0;account 123/account 124/;keyholder 123 k% 12345/;4;keyholder 124 k1000 12345
many 7 4;account 123/account 124/;keyholder 123 k% 12345/;4;keyholder 123 a 12345
same 7 6;account 123/account 124/;keyholder 123 k% 12345/;4;keyholder 123 k1003 12345
accounts 2 0;account 123/account 124/;hours 123 mon 08:00 09:00/;28;hours 124 mon 08:00 09:00
many 31 28;account 123/account 124/;hours 123 mon 08:00 09:00/;28;hours 123 mon 08:00 09:00
missing 31 0;account 123/account 124/;hours 123 mon 08:00 09:00/;28;hours 125 tue 08:00 09:00
accounts 0 0;;#;1024;
accounts 0 0;;#;1024;^/
form 1 0;;#;1024;^
form 1 0;;#;1025;
form 1 0;;#;1025;/x
same 3 2;;#;1024;/account 123/account 123
accounts 1 0;account 123/###################/;#%%%%%%%##/;131071;
large 0 0;account 123/###################/;#%%%%%%%##/;131071;/
form 1 0;x/#############################/;#%%%%%%%##/;131071;
large 0 0;x/#############################/;#%%%%%%%##/;131071;#";

// What is told of a text: a word and two numbers.
fn told(alloc: Global, text: &[u8]) -> (&'static str, u64, u64) {
    match Setup::read(alloc, text) {
        Ok(setup) => ("accounts", setup.count() as u64, 0),
        Err(fault) => parts(fault),
    }
}

fn parts(fault: SetupFault) -> (&'static str, u64, u64) {
    match fault {
        SetupFault::TooLarge => ("large", 0, 0),
        SetupFault::BadLine { line, kind } => (kind_of(kind), line, 0),
        SetupFault::TwoSame { line, first } => ("same", line, first),
        SetupFault::TooMany { line, limit } => ("many", line, limit),
        SetupFault::Memory => ("memory", 0, 0),
    }
}

fn kind_of(kind: LineKind) -> &'static str {
    match kind {
        LineKind::Form => "form",
        LineKind::BadZone => "zone",
        LineKind::NoAccount => "missing",
    }
}

// Puts a part of a text last, in which `/` stands for a line feed, `^` for a carriage return and `%` for these digits.
fn put(rt: &impl Abort, text: &mut Vec<u8>, part: &str, digits: &[u8]) {
    for byte in part.bytes() {
        match byte {
            b'%' => put_bytes(rt, text, digits),
            b'/' => put_bytes(rt, text, b"\n"),
            b'^' => put_bytes(rt, text, b"\r"),
            _ => put_bytes(rt, text, &[byte]),
        }
    }
}

fn put_bytes(rt: &impl Abort, text: &mut Vec<u8>, bytes: &[u8]) {
    text.extend_from_slice(bytes).expect(rt, "memory");
}

// The last four digits of a number.
fn digits_of(number: u64) -> [u8; 4] {
    let mut digits = *b"0000";
    for (digit, power) in digits.iter_mut().zip([1000, 100, 10, 1]) {
        *digit = b'0' + (number / power % 10) as u8;
    }
    digits
}

fn put_parts(rt: &impl Abort, text: &mut Vec<u8>, part: &str, count: u64) {
    for i in 0..count {
        put(rt, text, part, &digits_of(i % 9000 + 1000));
    }
}

// Puts the text of a row's beginning, part, count and end.
fn put_row(rt: &impl Abort, text: &mut Vec<u8>, row: &str) {
    let (first, rest) = cut(rt, row, ';');
    let (part, rest) = cut(rt, rest, ';');
    let (count, last) = cut(rt, rest, ';');
    put(rt, text, first, b"");
    put_parts(rt, text, part, number(rt, count));
    put(rt, text, last, b"");
}

#[test]
fn texts(rt: HostRuntime) {
    for row in TEXTS.lines() {
        let (want, signs) = cut(&rt, row, ';');
        let mut text = Vec::new(rt.alloc());
        put(&rt, &mut text, signs, b"");
        compare(&rt, rt.alloc(), &text, want);
    }
}

#[test]
fn long_texts(rt: HostRuntime) {
    for row in LONG_TEXTS.lines() {
        let (want, rest) = cut(&rt, row, ';');
        let mut text = Vec::new(rt.alloc());
        put_row(&rt, &mut text, rest);
        compare(&rt, rt.alloc(), &text, want);
    }
}

// The text is told as these words say.
fn compare(rt: &impl Abort, alloc: Global, text: &[u8], want: &str) {
    let (word, first, second) = told(alloc, text);
    let (want_word, numbers) = cut(rt, want, ' ');
    let (want_first, want_second) = cut(rt, numbers, ' ');
    same_text(rt, word, want_word, want);
    same(rt, first, number(rt, want_first), want);
    same(rt, second, number(rt, want_second), want);
}

// Accounts with keys, and the block 00 11 to ff that they encrypt: FIPS 197, appendix C; the last is of openssl.
const KEYS: &[u8] = b"\
account 016 key 000102030405060708090a0b0c0d0e0f
account 000
account b24 key 000102030405060708090A0B0C0D0E0F1011121314151617 beat 7
account B32 key 000102030405060708090a0b0c0d0e0F101112131415161718191a1B1C1D1E1F
account FFF key 69c4e0d86a7b0430d8cdb78070b4c55a";

#[test]
fn keys(rt: HostRuntime) {
    let setup = copied(&rt, rt.alloc(), KEYS);
    encrypts(&rt, &setup, "016", 0x69c4e0d8_6a7b0430_d8cdb780_70b4c55a);
    encrypts(&rt, &setup, "B24", 0xdda97ca4_864cdfe0_6eaf70a0_ec0d7191);
    encrypts(&rt, &setup, "B32", 0x8ea2b7ca_516745bf_eafc4990_4b496089);
    encrypts(&rt, &setup, "FFF", 0x78cf9c98_7f9c7feb_514fe4a4_197b7283);
    holds(&rt, setup.key(&short(&rt, "000")).is_none(), "no key");
    holds(&rt, setup.key(&short(&rt, "b24")).is_none(), "no account");
}

// A copy of the setup of a text.
fn copied(rt: &impl Abort, alloc: Global, text: &[u8]) -> Setup {
    let setup = Setup::read(alloc, text).expect(rt, "a setup");
    setup.copy(alloc).expect(rt, "a copy")
}

fn encrypts(rt: &impl Abort, setup: &Setup, account: &str, want: u128) {
    let key = setup.key(&short(rt, account)).expect(rt, "a key");
    let mut block = (0x00112233_44556677_8899aabb_ccddeeff_u128).to_be_bytes();
    aes_chain::encrypt_block(key, &mut block);
    same_bytes(rt, &block, &want.to_be_bytes(), account);
}

// A small station.
const STATION: &[u8] = b"\
# the station of Main Street
account 1234 beat 60
account abcd offset -840
operator ann 1234
operator bob 56789
hours 1234 sun 08:00 18:00
hours ABCD mon 22:30 24:00
keyholder 1234 kim +4312345
keyholder 1234 lee 067890
plan * burglary premises police
plan 1234 burglary premises holders police@closed
plan * fire holders@closed";

// After how many seconds a hold lapses by a text, or `-`. `/` stands for a line feed, `^` for a carriage return.
const LAPSES: &str = "\
-;
-;account 123/operator a 1234
60;lapse 60
86400;lapse 86400/
900;# holds/account 123/lapse 900^/operator a 1234";

#[test]
fn lapses(rt: HostRuntime) {
    for row in LAPSES.lines() {
        let (want, signs) = cut(&rt, row, ';');
        let mut text = Vec::new(rt.alloc());
        put(&rt, &mut text, signs, b"");
        let setup = copied(&rt, rt.alloc(), &text);
        same_found(&rt, setup.lapse(), found(&rt, want), row);
    }
}

// The PIN of an operator of the setup.
fn pin<'a>(setup: &'a Setup, name: &Txt) -> Option<&'a [u8]> {
    match setup.operator(name) {
        Some(operator) => Some(operator.pin.bytes()),
        None => None,
    }
}

#[test]
fn parts_of_a_station(rt: HostRuntime) {
    let setup = copied(&rt, rt.alloc(), STATION);
    same_bytes(&rt, setup.text(), STATION, "the text");
    assert!(&rt; setup.count() == 2);
    holds(&rt, setup.account(0).beat == Some(60), "a beat");
    holds(&rt, setup.knows(&setup.account(1).number), "an account");
    holds(
        &rt,
        pin(&setup, &short(&rt, "ann")) == Some(b"1234"),
        "a PIN",
    );
    holds(
        &rt,
        pin(&setup, &short(&rt, "kim")).is_none(),
        "no operator",
    );
}

// Sundays from eight to six in Berlin close at 16:00 GMT in September, and at 17:00 in January. At an offset of an hour they close at 17:00 GMT in September, too.
const HOURS: &[u8] = b"\
account 1234 zone CET-1CEST,M3.5.0,M10.5.0/3
account abcd offset 60
hours 1234 sun 08:00 18:00
hours ABCD sun 08:00 18:00";

#[test]
fn hours_by_zones(rt: HostRuntime) {
    let setup = copied(&rt, rt.alloc(), HOURS);
    assert!(&rt; setup.count() == 2);
    let berlin = &setup.account(0).week;
    same_found(
        &rt,
        berlin.next_close(1_000_000_000),
        Some(1_000_051_200),
        "summer",
    );
    same_found(
        &rt,
        berlin.next_close(1_010_000_000),
        Some(1_010_336_400),
        "winter",
    );
    holds(&rt, !berlin.in_hours(1_000_015_199), "before eight");
    holds(&rt, berlin.in_hours(1_000_015_200), "from eight on");
    let fixed = &setup.account(1).week;
    same_found(
        &rt,
        fixed.next_close(1_000_000_000),
        Some(1_000_054_800),
        "an offset",
    );
}

#[test]
fn a_zone_that_is_no_utf8(rt: HostRuntime) {
    let text = b"account 123\naccount 124 zone \xff\xfe\xfd1";
    compare(&rt, rt.alloc(), text, "zone 2 0");
}
