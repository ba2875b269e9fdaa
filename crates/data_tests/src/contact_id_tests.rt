// Codes and forms of Contact ID data (DC-05), by the profile's tables.
use crate::checks::{cut, holds, is_named, number, same};
use arc_data::{Class, Kind};
use contact_id::read;
use std::process::Abort;

const DIGITS: [u8; 16] = *b"0123456789ABCDEF";

// What is read of a qualifier and a code of three digits, which has to be the code of the signal.
fn read_code(qualifier: u8, code: &[u8]) -> Option<(Class, Kind)> {
    let [a, b, c] = code else {
        return None;
    };
    let content = [
        qualifier, *a, *b, *c, b' ', b'0', b'1', b' ', b'0', b'0', b'1',
    ];
    match read(&content) {
        Some(signal) if signal.code.bytes() == code => Some((signal.class, signal.kind)),
        _ => None,
    }
}

// Whether the code is read as the words say.
fn is_read_as(qualifier: u8, code: &[u8], words: &str) -> bool {
    match read_code(qualifier, code) {
        Some((class, kind)) => is_named(words, class, kind),
        None => false,
    }
}

// A qualifier, a class and a kind, how many of all codes have them, and codes of it.
const CODES: &str = "\
1;medical new;3;100 101 102
3;medical restore;3;100 101 102
6;medical again;3;100 101 102
1;fire new;9;110 111 112 113 114 115 116 117 118
3;fire restore;9;110 111 112 113 114 115 116 117 118
6;fire again;9;110 111 112 113 114 115 116 117 118
1;panic new;4;120 121 122 123
3;panic restore;4;120 121 122 123
6;panic again;4;120 121 122 123
1;burglary new;10;130 131 132 133 134 135 136 138 139 140
3;burglary restore;10;130 131 132 133 134 135 136 138 139 140
6;burglary again;10;130 131 132 133 134 135 136 138 139 140
1;tamper new;4;137 144 145 383
3;tamper restore;4;137 144 145 383
6;tamper again;4;137 144 145 383
1;gas new;2;151 162
3;gas restore;2;151 162
6;gas again;2;151 162
1;environment new;4;150 154 158 159
3;environment restore;4;150 154 158 159
6;environment again;4;150 154 158 159
1;commfail new;2;350 354
3;commfail restore;2;350 354
6;commfail again;2;350 354
1;trouble new;8;301 302 305 344 373 380 381 384
3;trouble restore;8;301 302 305 344 373 380 381 384
6;trouble again;8;301 302 305 344 373 380 381 384
1;openclose opening;8;400 401 402 403 407 408 409 441
3;openclose closing;8;400 401 402 403 407 408 409 441
6;openclose log;8;400 401 402 403 407 408 409 441
1;lateclose new;1;454
3;lateclose restore;1;454
6;lateclose again;1;454
1;cancel log;1;406
3;cancel log;1;406
6;cancel log;1;406
1;bypass log;1;570
3;bypass log;1;570
6;bypass log;1;570
1;test log;3;601 602 607
3;test log;3;601 602 607
6;test log;3;601 602 607
1;program log;2;627 628
3;program log;2;627 628
6;program log;2;627 628
1;unlisted new;4034;000 099 103 119 124 141 999 1FF A00 b31 13a
3;unlisted new;4034;000 099 103 119 124 141 999 1FF A00 b31 13a
6;unlisted new;4034;000 099 103 119 124 141 999 1FF A00 b31 13a";

// Each code of a row is read as its words say, and so are so many of all.
#[test]
fn reads_each_code_of_the_table(rt: HostRuntime) {
    for row in CODES.lines() {
        compare_row(&rt, row);
    }
}

fn compare_row(rt: &impl Abort, row: &str) {
    let (qualifier, rest) = cut(rt, row, ';');
    let (words, rest) = cut(rt, rest, ';');
    let (want, codes) = cut(rt, rest, ';');
    let qualifier = qualifier_of(rt, qualifier);
    for code in codes.split(' ') {
        holds(rt, is_read_as(qualifier, code.as_bytes(), words), row);
    }
    same(rt, count(qualifier, words), number(rt, want), row);
}

fn qualifier_of(rt: &impl Abort, word: &str) -> u8 {
    *word.as_bytes().first().expect(rt, "a qualifier")
}

// How many of all codes are read as the words say.
fn count(qualifier: u8, words: &str) -> u64 {
    let mut count: u64 = 0;
    for place in 0..4096 {
        if is_read_as(qualifier, &code_at(place), words) {
            count = count.wrapping_add(1);
        }
    }
    count
}

// The code at a place in the order of all, of which there are 4096.
fn code_at(place: usize) -> [u8; 3] {
    [
        DIGITS[place / 256 % 16],
        DIGITS[place / 16 % 16],
        DIGITS[place % 16],
    ]
}

// The class and kind of a content, or `-` where it has not the form, and the content.
const FORMS: &str = "\
unlisted new;1999 01 001
openclose closing;3401 01 001
openclose log;6401 01 001
burglary again;6131 01 001
burglary new;1131 fF aB9
burglary new;1131 01 001][S123Main St.
burglary new;1131 01 001]
-;2131 01 001
-;0131 01 001
-;
-;]1131 01 001
-;1131 01 00
-;1131 01 00]1
-;1131 01 0011
-;1131  01 001
-;1131-01 001
-;1131 01-001
-;11G1 01 001
-;1131 0g 001
-;1131 01 00:
-; 131 01 001";

// Whether the content is read as the words say.
fn is_content_of(content: &[u8], words: &str) -> bool {
    match read(content) {
        Some(signal) => is_named(words, signal.class, signal.kind),
        None => words == "-",
    }
}

#[test]
fn reads_the_form_alone(rt: HostRuntime) {
    for row in FORMS.lines() {
        let (words, content) = cut(&rt, row, ';');
        holds(&rt, is_content_of(content.as_bytes(), words), row);
    }
}
