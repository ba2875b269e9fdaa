// Codes, readings and the grammar of SIA data (a profile of DC-03), by the profile's tables.
use crate::checks::{cut, holds, is_named, number, same};
use arc_data::{Class, Kind, Signals};
use sia_codes::read;
use std::process::Abort;

// The class and kind of the one event of a code, which has to be the code of the signal.
fn read_code(code: [u8; 2]) -> Option<(Class, Kind)> {
    let [a, b] = code;
    let signals = read(&[b'N', a, b])?;
    if signals.count() != 1 {
        return None;
    }
    let signal = signals.at(0);
    if signal.code.bytes() == code.as_slice() {
        Some((signal.class, signal.kind))
    } else {
        None
    }
}

// Whether the code is read as the words say.
fn is_read_as(code: [u8; 2], words: &str) -> bool {
    match read_code(code) {
        Some((class, kind)) => is_named(words, class, kind),
        None => false,
    }
}

// A class and a kind, how many of all pairs of letters have them, and codes of them.
const CODES: &str = "\
fire new;2;FAKA
fire restore;3;FHFRKR
medical new;2;MAQA
medical restore;2;MRQR
panic new;2;HAPA
panic restore;2;HRPR
gas new;1;GA
gas restore;1;GR
burglary new;3;BABVUA
burglary restore;2;BRUR
tamper new;1;TA
tamper restore;1;TR
environment new;2;WAZA
environment restore;2;WRZR
commfail new;1;YC
commfail restore;1;YK
trouble new;4;ATBTFTYT
trouble restore;4;ARBJFJYR
lateclose new;1;CI
lateclose restore;0;
openclose opening;3;OPOGOR
openclose closing;3;CLCFCG
bypass log;2;BBBU
cancel log;1;BC
test log;2;RPRX
unlisted new;628;ZQAAZZCRGTYY";

// Each code of a row is read as its words say, and so are so many of all pairs of letters.
#[test]
fn reads_each_code_of_the_table(rt: HostRuntime) {
    for row in CODES.lines() {
        compare_row(&rt, row);
    }
}

fn compare_row(rt: &impl Abort, row: &str) {
    let (words, rest) = cut(rt, row, ';');
    let (want, codes) = cut(rt, rest, ';');
    for code in codes.as_bytes().chunks(2) {
        holds(rt, is_pair_of(code, words), row);
    }
    same(rt, count(words), number(rt, want), row);
}

fn is_pair_of(code: &[u8], words: &str) -> bool {
    match code {
        [a, b] => is_read_as([*a, *b], words),
        _ => false,
    }
}

const LETTERS: [u8; 26] = *b"ABCDEFGHIJKLMNOPQRSTUVWXYZ";

// How many of all pairs of letters are read so.
fn count(words: &str) -> u64 {
    let mut count: u64 = 0;
    for place in 0..676 {
        if is_read_as([LETTERS[place / 26 % 26], LETTERS[place % 26]], words) {
            count = count.wrapping_add(1);
        }
    }
    count
}

// The codes of the signals of a content, or `-` where it has none, and the content.
const CONTENTS: &str = "\
BABR;Nri1/BA01/BR01
BA;NBA01BR01
-;N
-;O
-;N/
-;N//
-;
-;BA
-;nBA
BA;OBA
BA;N/BA
-;N//BA
BA;NBA/
-;NBA//
-;NBA//BR
BABRCLOPFAFRTATR;N/BA/BR/CL/OP/FA/FR/TA/TR
-;N/BA/BA/BA/BA/BA/BA/BA/BA/BA
BABR;NBA12345678/BR
BABR;NBA123456789/BR
BAFA;NBA0123ABCDBR/FA
BA;NriBA
BA;NritiBA
BA;Nri/ti/BA
BA;Nti12:30-1.5BA
-;Nti12,30/BA
-;Nri//BA
-;Nri1
BA;NBA/ri1
BA;NBA/ri1/
BA;NBAri1
BA;NBA]//
-;N]BA
-;N1BA
-;NBA/1
-;N BA
-;NB
-;NBA/B
-;NBa
-;NbA
-;Nr1/BA
-;NridBA
-;NB1";

// Whether these are the codes of the signals, in order.
fn has_codes(signals: &Signals, codes: &[u8]) -> bool {
    let mut i: usize = 0;
    for code in codes.chunks(2) {
        if i >= signals.count() || signals.at(i).code.bytes() != code {
            return false;
        }
        i += 1;
    }
    i == signals.count()
}

// Whether the content has signals of these codes, or none where that is wanted.
fn has(content: &[u8], want: &str) -> bool {
    match read(content) {
        Some(signals) => has_codes(&signals, want.as_bytes()),
        None => want == "-",
    }
}

#[test]
fn reads_the_grammar(rt: HostRuntime) {
    for row in CONTENTS.lines() {
        let (want, content) = cut(&rt, row, ';');
        holds(&rt, has(content.as_bytes(), want), row);
    }
    holds(&rt, has(b"NBA*\x00\xff [x\"|#/BR", "BABR"), "free text");
}

#[test]
fn keeps_the_order_of_the_events(rt: HostRuntime) {
    let signals = read(b"Nri1/BA01/BR01").expect(&rt, "two events");
    assert!(&rt; signals.count() == 2);
    let (first, second) = (signals.at(0), signals.at(1));
    holds(
        &rt,
        is_named("burglary new", first.class, first.kind),
        "the first",
    );
    holds(
        &rt,
        is_named("burglary restore", second.class, second.kind),
        "the second",
    );
}
