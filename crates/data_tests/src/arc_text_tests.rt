// Numbers and hexadecimal words at their limits, pairs compared, and streams cut into lines.
ghost use Rattle.std.specs.Prelude.{◌≡◌, ◌<◌};

use crate::checks::{cut, found, holds, same_found};
use arc_text::{Steps, dec, hex_word, order};
use std::cmp::Ordering;
use std::marker::Brand;
use std::process::Abort;
use std::sync::ledger::{Blank, Ledger};

mod lines;

// A text, and its number or `-`.
const NUMBERS: &str = "\
0=0
7=7
65536=65536
18446744073709551615=18446744073709551615
18446744073709551616=-
99999999999999999999=-
=-
00=-
01=-
+1=-
-1=-
-0=-
 1=-
1 =-
1a=-
0x10=-";

#[test]
fn reads_numbers(rt: HostRuntime) {
    for row in NUMBERS.lines() {
        let (text, want) = cut(&rt, row, '=');
        same_found(&rt, dec(text.as_bytes()), found(&rt, want), row);
    }
}

// A text, and the number of its hexadecimal word or `-`.
const WORDS: &str = "\
0000=0
0fFf=4095
BB3D=47933
bb3d=47933
ffff=65535
9aAf=39599
=-
BB3=-
BB3D0=-
BB3G=-
+123=-
/000=-
:000=-
@000=-
`000=-
g000=-";

#[test]
fn reads_hexadecimal_words(rt: HostRuntime) {
    for row in WORDS.lines() {
        let (text, want) = cut(&rt, row, '=');
        let told = hex_word(text.as_bytes()).map(u64::from);
        same_found(&rt, told, found(&rt, want), row);
    }
}

fn play_order<L: Ledger, R: Abort>(rt: &R, blank: Blank)
    requires name { blank.name ≡ L.name }
    requires parts { blank.parts ≡ L.parts }
    requires some { 0 < blank.parts }
{
    let mut steps = Steps::<L>::new(blank);
    let told = order((1, 9), (2, 0), &mut steps);
    holds(rt, told == Ordering::Less, "by the first numbers");
    let told = order((2, 9), (2, 10), &mut steps);
    holds(rt, told == Ordering::Less, "by the second numbers");
    let told = order((2, 9), (2, 9), &mut steps);
    holds(rt, told == Ordering::Equal, "two equal pairs");
    let told = order((3, 0), (2, 9), &mut steps);
    holds(
        rt,
        told == Ordering::Greater,
        "by the first numbers, the other way",
    );
}

#[test]
fn pairs_of_numbers(rt: HostRuntime) {
    play_order::<Brand, _>(&rt, Blank::new(1));
}
