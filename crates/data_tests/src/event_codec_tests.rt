// Bytes of events, worked out by hand.
use crate::checks::{cut, number, same_bytes, same_text};
use arc_data::{Event, Message, Txt};
use event_codec::{decode, encode};
use std::alloc::Global;
use std::fmt::Debug;
use std::process::Abort;

// The bytes of an event in version 2 in hexadecimal digits, and before a `;` its moment and what it tells. `-` stands for bytes that are no
// spelling; behind a `*` stands how often a byte comes.
const ROWS: &str = "\
1000000000 adopt 1 bytes;01 000000003b9aca00 00000001 61
1000000000 start;02 000000003b9aca00
1000000000 message 1234 - 0 1 AdmCid 16 bytes via line;03 000000003b9aca00 04 31323334 00 01 30 0001 02 0010 31313331203031203030315d5b785d0a 04 6c696e65
1000000000 message ABC 12 3 9999 SiaDcs 0 bytes via line;03 000000003b9aca00 03 414243 02 3132 01 33 270f 01 0000 04 6c696e65
1000000000 beat 1234;04 000000003b9aca00 04 31323334
1000000000 tick;05 000000003b9aca00
1000000000 claim ann 7;06 000000003b9aca00 03 616e6e 0000000000000007
253402300799 next b.;07 0000003afff4417f 02 622e
1000000000 act ann 7 Holder(4) NoAnswer;08 000000003b9aca00 03 616e6e 0000000000000007 05 02
1000000000 act ann 7 Note Done;08 000000003b9aca00 03 616e6e 0000000000000007 0a 03
1000000000 release ann 18446744073709551615;09 000000003b9aca00 03 616e6e ffffffffffffffff
1000000000 close ann 7 False;0a 000000003b9aca00 03 616e6e 0000000000000007 02
-;
-;00 000000003b9aca00
-;0b 000000003b9aca00
-;02 000000003b9aca
-;02 000000003b9aca00 00
-;02 0000003afff44180
-;01 000000003b9aca00 00000002 61
-;01 000000003b9aca00 00400001 61
-;03 000000003b9aca00 04 31323334 00 01 30 2710 02 0000 04 6c696e65
-;03 000000003b9aca00 04 31323334 00 01 30 0001 03 0000 04 6c696e65
-;03 000000003b9aca00 04 31323334 07 31323334353637 01 30 0001 02 0000 04 6c696e65
-;03 000000003b9aca00 04 31323334 00 00 0001 02 0000 04 6c696e65
-;04 000000003b9aca00 02 3132
-;04 000000003b9aca00 03 616263
-;06 000000003b9aca00 00 0000000000000007
-;06 000000003b9aca00 01 20 0000000000000007
-;08 000000003b9aca00 03 616e6e 0000000000000007 05 03
-;08 000000003b9aca00 03 616e6e 0000000000000007 0b 03
-;0a 000000003b9aca00 03 616e6e 0000000000000007 04";

// Each field at its limits, and one past them.
const LIMITS: &str = "\
0 start;02 0000000000000000
253402300799 tick;05 0000003afff4417f
-;05 0000003afff44180
1000000000 adopt 0 bytes;01 000000003b9aca00 00000000
1000000000 adopt 4194304 bytes;01 000000003b9aca00 00400000 61*4194304
-;01 000000003b9aca00 00400001 61*4194305
-;01 000000003b9aca00 00400000 61*4194303
-;01 000000003b9aca00 00400000 61*4194305
1000000000 beat 0123456789ABCDEF;04 000000003b9aca00 10 30313233343536373839414243444546
-;04 000000003b9aca00 11 3031323334353637383941424344454630
1000000000 beat FFF;04 000000003b9aca00 03 46*3
-;04 000000003b9aca00 02 46*2
1000000000 message 0123456789ABCDEF aBcDeF F 0 SiaDcs 0 bytes via line;03 000000003b9aca00 10 30313233343536373839414243444546 06 614263446546 01 46 0000 01 0000 04 6c696e65
-;03 000000003b9aca00 11 3031323334353637383941424344454630 06 614263446546 01 46 0000 01 0000 04 6c696e65
-;03 000000003b9aca00 03 414243 07 61426344654630 01 46 0000 01 0000 04 6c696e65
1000000000 message ABC 1 aBcDeF 9999 AdmCid 0 bytes via line;03 000000003b9aca00 03 414243 01 31 06 614263446546 270f 02 0000 04 6c696e65
-;03 000000003b9aca00 03 414243 01 31 07 61426344654630 270f 02 0000 04 6c696e65
-;03 000000003b9aca00 03 414243 01 31 00 270f 02 0000 04 6c696e65
-;03 000000003b9aca00 03 414243 01 31 01 46 2710 02 0000 04 6c696e65
-;03 000000003b9aca00 03 414243 01 31 01 46 270f 00 0000 04 6c696e65
-;03 000000003b9aca00 03 414243 01 31 01 46 270f 03 0000 04 6c696e65
1000000000 message ABC - 0 1 SiaDcs 4095 bytes via line;03 000000003b9aca00 03 414243 00 01 30 0001 01 0fff ff*4095 04 6c696e65
-;03 000000003b9aca00 03 414243 00 01 30 0001 01 1000 ff*4096 04 6c696e65
-;03 000000003b9aca00 03 414243 00 01 30 0001 01 0fff ff*4094 04 6c696e65
-;03 000000003b9aca00 03 414243 00 01 30 0001 01 0fff ff*4096 04 6c696e65
1000000000 next 0123456789.-_aZz;07 000000003b9aca00 10 303132333435363738392e2d5f615a7a
-;07 000000003b9aca00 11 303132333435363738392e2d5f615a7a30
1000000000 next x;07 000000003b9aca00 01 78
-;07 000000003b9aca00 00
1000000000 claim zzzzzzzzzzzzzzzz 0;06 000000003b9aca00 10 7a*16 00*8
1000000000 claim z 18446744073709551615;06 000000003b9aca00 01 7a ff*8
-;06 000000003b9aca00 11 7a*17 00*8
-;06 000000003b9aca00 01 7a 00*7
-;06 000000003b9aca00 01 7a 00*9
1000000000 act z 1 Premises Reached;08 000000003b9aca00 01 7a 0000000000000001 01 01
1000000000 act z 1 Holder(1) Reached;08 000000003b9aca00 01 7a 0000000000000001 02 01
1000000000 act z 1 Holder(4) NoAnswer;08 000000003b9aca00 01 7a 0000000000000001 05 02
1000000000 act z 1 Police Done;08 000000003b9aca00 01 7a 0000000000000001 06 03
1000000000 act z 1 Fire Done;08 000000003b9aca00 01 7a 0000000000000001 07 03
1000000000 act z 1 Ambulance Done;08 000000003b9aca00 01 7a 0000000000000001 08 03
1000000000 act z 1 Guard Done;08 000000003b9aca00 01 7a 0000000000000001 09 03
1000000000 act z 1 Note Done;08 000000003b9aca00 01 7a 0000000000000001 0a 03
-;08 000000003b9aca00 01 7a 0000000000000001 00 01
-;08 000000003b9aca00 01 7a 0000000000000001 0b 03
-;08 000000003b9aca00 01 7a 0000000000000001 01 00
-;08 000000003b9aca00 01 7a 0000000000000001 0a 04
-;08 000000003b9aca00 01 7a 0000000000000001 05 03
-;08 000000003b9aca00 01 7a 0000000000000001 06 02
1000000000 close z 1 Real;0a 000000003b9aca00 01 7a 0000000000000001 01
1000000000 close z 1 Test;0a 000000003b9aca00 01 7a 0000000000000001 03
-;0a 000000003b9aca00 01 7a 0000000000000001 00
-;0a 000000003b9aca00 01 7a 0000000000000001 04
1000000000 message ABC - 0 1 SiaDcs 0 bytes via l;03 000000003b9aca00 03 414243 00 01 30 0001 01 0000 01 6c
1000000000 message ABC - 0 1 SiaDcs 0 bytes via 0123456789.-_aZz;03 000000003b9aca00 03 414243 00 01 30 0001 01 0000 10 303132333435363738392e2d5f615a7a
-;03 000000003b9aca00 03 414243 00 01 30 0001 01 0000 11 303132333435363738392e2d5f615a7a30
-;03 000000003b9aca00 03 414243 00 01 30 0001 01 0000 00
-;03 000000003b9aca00 03 414243 00 01 30 0001 01 0000
-;03 000000003b9aca00 03 414243 00 01 30 0001 01 0000 01 20
-;03 000000003b9aca00 03 414243 00 01 30 0001 01 0000 01
-;03 000000003b9aca00 03 414243 00 01 30 0001 01 0000 01 6c 00";

// In version 1 a message leaves out its line; all else is as in version 2.
const OLD_ROWS: &str = "\
1000000000 adopt 1 bytes;01 000000003b9aca00 00000001 61
1000000000 start;02 000000003b9aca00
1000000000 message 1234 - 0 1 AdmCid 16 bytes via v1;03 000000003b9aca00 04 31323334 00 01 30 0001 02 0010 31313331203031203030315d5b785d0a
1000000000 message ABC 12 3 9999 SiaDcs 0 bytes via v1;03 000000003b9aca00 03 414243 02 3132 01 33 270f 01 0000
-;03 000000003b9aca00 03 414243 02 3132 01 33 270f 01 0000 02 7631
-;03 000000003b9aca00 03 414243 02 3132 01 33 270f 01 0000 00
-;03 000000003b9aca00 03 414243 02 3132 01 33 270f 01
1000000000 beat 1234;04 000000003b9aca00 04 31323334
1000000000 tick;05 000000003b9aca00
1000000000 claim ann 7;06 000000003b9aca00 03 616e6e 0000000000000007
1000000000 next b.;07 000000003b9aca00 02 622e
1000000000 act ann 7 Note Done;08 000000003b9aca00 03 616e6e 0000000000000007 0a 03
1000000000 release ann 1;09 000000003b9aca00 03 616e6e 0000000000000001
1000000000 close ann 7 False;0a 000000003b9aca00 03 616e6e 0000000000000007 02
-;02 000000003b9aca00 00
-;0b 000000003b9aca00";

#[test]
fn events_and_their_bytes(rt: HostRuntime) {
    for row in ROWS.lines() {
        compare(&rt, rt.alloc(), row);
    }
    for row in LIMITS.lines() {
        compare(&rt, rt.alloc(), row);
    }
}

#[test]
fn events_and_their_bytes_of_version_1(rt: HostRuntime) {
    for row in OLD_ROWS.lines() {
        compare_old(&rt, rt.alloc(), row);
    }
}

fn compare(rt: &impl Abort, alloc: Global, row: &str) {
    let (want, digits) = cut(rt, row, ';');
    let bytes = bytes_of(rt, alloc, digits);
    let mut told = String::new(alloc);
    tell(rt, alloc, &mut told, &bytes);
    same_text(rt, &told, want, row);
}

fn compare_old(rt: &impl Abort, alloc: Global, row: &str) {
    let (want, digits) = cut(rt, row, ';');
    let bytes = bytes_of(rt, alloc, digits);
    let mut told = String::new(alloc);
    match decode(alloc, 1, &bytes).expect(rt, "memory") {
        Some((event, at)) => tell_entry(rt, &mut told, &event, at),
        None => put(rt, &mut told, "-"),
    }
    same_text(rt, &told, want, row);
}

fn bytes_of(rt: &impl Abort, alloc: Global, words: &str) -> Vec<u8> {
    let mut bytes = Vec::new(alloc);
    for word in words.split_whitespace() {
        match word.split_once('*') {
            Some((pair, count)) => add_many(rt, pair, number(rt, count), &mut bytes),
            None => add_pairs(rt, word, &mut bytes),
        }
    }
    bytes
}

fn add_pairs(rt: &impl Abort, word: &str, bytes: &mut Vec<u8>) {
    for pair in word.as_bytes().chunks(2) {
        bytes.push(byte_of(rt, pair)).expect(rt, "memory");
    }
}

// The byte of two hexadecimal digits.
fn byte_of(rt: &impl Abort, pair: &[u8]) -> u8 {
    let pair = std::str::from_utf8(pair).expect(rt, "digits");
    u8::from_str_radix(pair, 16).expect(rt, "digits")
}

fn add_many(rt: &impl Abort, pair: &str, count: u64, bytes: &mut Vec<u8>) {
    let byte = byte_of(rt, pair.as_bytes());
    let many = [byte; 256];
    for _ in 0..count / 256 {
        bytes.extend_from_slice(&many).expect(rt, "memory");
    }
    let rest = (count % 256) as usize;
    bytes.extend_from_slice(&many[..rest]).expect(rt, "memory");
}

// Tells the moment and the event of the bytes, which has these very bytes, or `-`.
fn tell(rt: &impl Abort, alloc: Global, told: &mut String, bytes: &[u8]) {
    match decode(alloc, 2, bytes).expect(rt, "memory") {
        Some((event, at)) => {
            let mut again = Vec::new(alloc);
            encode(&event, at, &mut again).expect(rt, "memory");
            same_bytes(rt, &again, bytes, "the bytes again");
            tell_entry(rt, told, &event, at);
        }
        None => put(rt, told, "-"),
    }
}

fn tell_entry(rt: &impl Abort, told: &mut String, event: &Event, at: u64) {
    put_number(rt, told, at);
    tell_event(rt, told, event);
}

fn put(rt: &impl Abort, told: &mut String, words: &str) {
    told.push_str(words).expect(rt, "memory");
}

fn put_number(rt: &impl Abort, told: &mut String, number: u64) {
    write!(told, "{number}").expect(rt, "memory");
}

// Puts a blank and the name of the value.
fn put_name<T: Debug>(rt: &impl Abort, told: &mut String, value: &T) {
    write!(told, " {value:?}").expect(rt, "memory");
}

// Puts a blank and the text.
fn put_text(rt: &impl Abort, told: &mut String, text: &Txt) {
    put(rt, told, " ");
    put(
        rt,
        told,
        std::str::from_utf8(text.bytes()).expect(rt, "a text"),
    );
}

// Puts the word, the operator and the number of an incident.
fn put_order(rt: &impl Abort, told: &mut String, word: &str, operator: &Txt, number: u64) {
    put(rt, told, word);
    put_text(rt, told, operator);
    put(rt, told, " ");
    put_number(rt, told, number);
}

fn tell_event(rt: &impl Abort, told: &mut String, event: &Event) {
    match event {
        Event::Adopt { text } => {
            put(rt, told, " adopt ");
            put_number(rt, told, text.count() as u64);
            put(rt, told, " bytes");
        }
        Event::Start => put(rt, told, " start"),
        Event::Message { message, via } => {
            tell_message(rt, told, message);
            put(rt, told, " via");
            put_text(rt, told, via);
        }
        Event::Beat { account } => {
            put(rt, told, " beat");
            put_text(rt, told, account);
        }
        Event::Tick => put(rt, told, " tick"),
        Event::Next { operator } => {
            put(rt, told, " next");
            put_text(rt, told, operator);
        }
        _ => tell_order(rt, told, event),
    }
}

fn tell_order(rt: &impl Abort, told: &mut String, event: &Event) {
    match event {
        Event::Claim { operator, number } => put_order(rt, told, " claim", operator, *number),
        Event::Release { operator, number } => put_order(rt, told, " release", operator, *number),
        Event::Act {
            operator,
            number,
            step,
            outcome,
        } => {
            put_order(rt, told, " act", operator, *number);
            put_name(rt, told, step);
            put_name(rt, told, outcome);
        }
        Event::Close {
            operator,
            number,
            code,
        } => {
            put_order(rt, told, " close", operator, *number);
            put_name(rt, told, code);
        }
        _ => put(rt, told, " no order"),
    }
}

fn tell_message(rt: &impl Abort, told: &mut String, message: &Message) {
    put(rt, told, " message");
    put_text(rt, told, &message.account);
    match &message.receiver {
        Some(digits) => put_text(rt, told, digits),
        None => put(rt, told, " -"),
    }
    put_text(rt, told, &message.line);
    put(rt, told, " ");
    put_number(rt, told, u64::from(message.seq));
    put_name(rt, told, &message.token);
    put(rt, told, " ");
    put_number(rt, told, message.content.count() as u64);
    put(rt, told, " bytes");
}
