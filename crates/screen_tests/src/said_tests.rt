// What a desk's lines say, from the desk's table of replies.
use desk_said::{Said, read};
use std::process::Abort;

// A name for what a line says, and the line behind it.
const LINES: &str = "\
welcome;ok ann
-;ok
-;ok ann bob
-;ok a,b
denied;denied
-;denied 
what;what
bye;bye
unknown;unknown
claimed;claimed 1 burglary 1234
-;claimed 1 burglary
-;claimed 0 burglary 1234
-;claimed 1 burglar 1234
-;claimed 1 openclose 1234
-;claimed 1 burglary 12
-;claimed 1 burglary 1234 5
none;none waiting
-;none
busy;busy with 3
-;busy with 03
-;busy by 3
held;held by ann
-;held by
notopen;not open 18446744073709551615
-;not open 18446744073709551616
notyours;not yours 7
-;not mine 7
expected;expected premises
expected;expected holder4
expected;expected none
-;expected holder5
-;expected
missing;missing police
-;missing none
recorded;recorded 1 left 0
recorded;recorded 1 left 10
-;recorded 1 left
-;recorded 1 right 0
released;released 1
closed;closed 1
-;closed one
list0;list 0
list1;list 1 1/burglary/1234/-
list2;list 40 1/fire/1234/ann 2/medical/ABC/-
-;list 1 1/burglary/1234
-;list 1 1/burglary/1234/-/
-;list 1  1/burglary/1234/-
-;list
incident;incident 1 burglary 1234 code 131 opened 1000000000 signals 1 restored no holder ann next premises via tcp
incident;incident 9 fire 00AA code FA opened 0 signals 12 restored yes holder none next none via -
-;incident 1 burglary 1234 code 131 opened 1000000000 signals 1 restored no holder ann next premises
-;incident 1 burglary 1234 code 131 opened 1000000000 signals 1 restored no holder ann next premises via
-;incident 1 burglary 1234 code 131 opened 1000000000 signals 1 restored no holder ann next premises via t,p
-;incident 1 burglary 1234 code 131 opened 1000000000 signals 1 restored maybe holder ann next premises via tcp
-;incident 1 burglary 1234 code 131 opened 1000000000 signals 1 restored no holder ann next via tcp
-;incident 1 burglary 1234 code 131 opened 1000000000 signals 1 restored no holder ann next premises via tcp now
-;incident 1 burglary 1234 opened 1000000000 code 131 signals 1 restored no holder ann next premises via tcp
-;
-; ok ann
-;OK ann
-;raised 3
";

fn name_of(said: &Said) -> &'static str {
    match said {
        Said::Welcome { .. } => "welcome",
        Said::Denied => "denied",
        Said::What => "what",
        Said::Bye => "bye",
        Said::Claimed { .. } => "claimed",
        Said::NoneWaiting => "none",
        Said::BusyWith { .. } => "busy",
        Said::HeldBy { .. } => "held",
        Said::NotOpen { .. } => "notopen",
        Said::NotYours { .. } => "notyours",
        Said::Expected { .. } => "expected",
        Said::Missing { .. } => "missing",
        Said::Recorded { .. } => "recorded",
        Said::Released { .. } => "released",
        Said::Closed { .. } => "closed",
        Said::Listed { rows, .. } => rows_name(rows.items().len()),
        Said::Shown(_) => "incident",
        Said::Unknown => "unknown",
        Said::Strange => "-",
    }
}

fn rows_name(count: usize) -> &'static str {
    match count {
        0 => "list0",
        1 => "list1",
        2 => "list2",
        16 => "list16",
        _ => "more",
    }
}

fn same(rt: &impl Abort, wanted: &str, line: &str) {
    let said = read(line.as_bytes());
    assert!(rt; name_of(&said) == wanted, "{line}");
}

#[test]
fn lines_of_the_table(rt: HostRuntime) {
    for row in LINES.lines() {
        let Some((wanted, line)) = row.split_once(';') else {
            continue;
        };
        same(&rt, wanted, line);
    }
}

#[test]
fn sixteen_rows_and_one_more(rt: HostRuntime) {
    let sixteen =
        "list 17 1/fire/1234/- 2/fire/1234/- 3/fire/1234/- 4/fire/1234/- 5/fire/1234/- 6/fire/1234/- 7/fire/1234/- 8/fire/1234/- 9/fire/1234/- 10/fire/1234/- 11/fire/1234/- 12/fire/1234/- 13/fire/1234/- 14/fire/1234/- 15/fire/1234/- 16/fire/1234/-";
    same(&rt, "list16", sixteen);
    let more =
        "list 17 1/fire/1234/- 2/fire/1234/- 3/fire/1234/- 4/fire/1234/- 5/fire/1234/- 6/fire/1234/- 7/fire/1234/- 8/fire/1234/- 9/fire/1234/- 10/fire/1234/- 11/fire/1234/- 12/fire/1234/- 13/fire/1234/- 14/fire/1234/- 15/fire/1234/- 16/fire/1234/- 17/fire/1234/-";
    same(&rt, "-", more);
}
