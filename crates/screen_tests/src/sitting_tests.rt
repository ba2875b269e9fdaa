// Sittings at a screen: what is sent to the desk, key by key and answer by answer, as the desk's guide has it.
use desk_screen::{Command, Order, Poll, Reaction, Screen};
use screen_page::order_line;
use std::process::Abort;

// What the desk shows of the incident that ann holds, by what comes next, and its list then.
const NOTE: &str =
    "incident 1 burglary 1234 code 131 opened 1000000000 signals 1 restored no holder ann next note via tcp";

const POLICE: &str =
    "incident 1 burglary 1234 code 131 opened 1000000000 signals 1 restored no holder ann next police via tcp";

const PREMISES: &str =
    "incident 1 burglary 1234 code 131 opened 1000000000 signals 1 restored no holder ann next premises via tcp";

const HOLDER1: &str =
    "incident 1 burglary 1234 code 131 opened 1000000000 signals 1 restored no holder ann next holder1 via tcp";

const HOLDER2: &str =
    "incident 1 burglary 1234 code 131 opened 1000000000 signals 1 restored no holder ann next holder2 via tcp";

const HOLDER3: &str =
    "incident 1 burglary 1234 code 131 opened 1000000000 signals 1 restored no holder ann next holder3 via tcp";

const NONE: &str =
    "incident 1 burglary 1234 code 131 opened 1000000000 signals 1 restored no holder ann next none via tcp";

const MINE: &str = "list 1 1/burglary/1234/ann";

fn name_of(command: &Command) -> &'static str {
    match command {
        Command::Login { .. } => "login",
        Command::Quit => "quit",
        Command::Next => "next",
        Command::Claim { .. } => "claim",
        Command::Act { .. } => "act",
        Command::Release { .. } => "release",
        Command::Close { .. } => "close",
        Command::Show { .. } => "show",
        Command::List => "list",
    }
}

fn sent(reaction: &Reaction) -> &'static str {
    match &reaction.sent {
        Some(Order::Typed(command)) => name_of(command),
        Some(Order::Polled(Poll::Whole)) => "(list)",
        Some(Order::Polled(Poll::One { .. })) => "(show)",
        None => "-",
    }
}

fn key(rt: &impl Abort, screen: &mut Screen, byte: u8, wanted: &str) {
    let reaction = screen.key(byte);
    assert!(rt; sent(&reaction) == wanted, "key {byte}");
}

// Keys at which nothing goes out.
fn typed(rt: &impl Abort, screen: &mut Screen, bytes: &[u8]) {
    for byte in bytes {
        key(rt, screen, *byte, "-");
    }
}

fn answer(rt: &impl Abort, screen: &mut Screen, line: &str, wanted: &str) {
    let reaction = screen.answer(line.as_bytes());
    assert!(rt; sent(&reaction) == wanted, "{line}");
}

// This line leads to a look at the list, which shows ann's incident.
fn looks(rt: &impl Abort, screen: &mut Screen, line: &str) {
    answer(rt, screen, line, "(list)");
    answer(rt, screen, MINE, "-");
}

// An answer behind which this very line goes out.
fn leads_to(rt: &impl Abort, screen: &mut Screen, line: &str, wanted: &str) {
    let reaction = screen.answer(line.as_bytes());
    match &reaction.sent {
        Some(order) => assert!(rt; order_line(order).bytes() == wanted.as_bytes(), "{line}"),
        None => assert!(rt; false, "{line}"),
    }
}

fn rings(rt: &impl Abort, screen: &mut Screen, line: &str, wanted: bool) {
    let reaction = screen.answer(line.as_bytes());
    assert!(rt; reaction.rung == wanted, "{line}");
}

fn second(rt: &impl Abort, screen: &mut Screen, wanted: &str) {
    let reaction = screen.second();
    assert!(rt; sent(&reaction) == wanted, "a second");
}

// A screen at which ann is logged in, and nothing is on the way.
fn at_work(rt: &impl Abort) -> Screen {
    let mut screen = Screen::new();
    let _ = screen.made();
    typed(rt, &mut screen, b"ann\r1234");
    key(rt, &mut screen, b'\r', "login");
    answer(rt, &mut screen, "ok ann", "(list)");
    answer(rt, &mut screen, "list 0", "-");
    screen
}

#[test]
fn an_incident_from_its_ring_to_its_closing(rt: HostRuntime) {
    let mut screen = at_work(&rt);
    second(&rt, &mut screen, "(list)");
    rings(&rt, &mut screen, "list 1 1/burglary/1234/-", true);
    key(&rt, &mut screen, b'n', "next");
    answer(&rt, &mut screen, "claimed 1 burglary 1234", "(show)");
    looks(&rt, &mut screen, PREMISES);
    key(&rt, &mut screen, b'd', "-");
    key(&rt, &mut screen, b'a', "act");
    key(&rt, &mut screen, b'a', "-");
    answer(&rt, &mut screen, "recorded 1 left 3", "(show)");
    answer(&rt, &mut screen, HOLDER1, "(list)");
    // the list is on the way: the act waits for its answer
    key(&rt, &mut screen, b'r', "-");
    answer(&rt, &mut screen, MINE, "act");
    answer(&rt, &mut screen, "recorded 1 left 1", "(show)");
    looks(&rt, &mut screen, POLICE);
    key(&rt, &mut screen, b'd', "act");
    answer(&rt, &mut screen, "recorded 1 left 0", "(show)");
    looks(&rt, &mut screen, NONE);
    key(&rt, &mut screen, b'y', "-");
    key(&rt, &mut screen, b'R', "-");
    key(&rt, &mut screen, b'n', "next");
    answer(&rt, &mut screen, "busy with 1", "(show)");
    looks(&rt, &mut screen, NONE);
    key(&rt, &mut screen, b'R', "-");
    key(&rt, &mut screen, b'y', "close");
    answer(&rt, &mut screen, "closed 1", "(list)");
    answer(&rt, &mut screen, "list 0", "-");
}

// A screen at which ann holds incident 1, and this line of the desk has shown it.
fn holding(rt: &impl Abort, shown: &str) -> Screen {
    let mut screen = at_work(rt);
    key(rt, &mut screen, b'n', "next");
    answer(rt, &mut screen, "claimed 1 burglary 1234", "(show)");
    looks(rt, &mut screen, shown);
    screen
}

#[test]
fn one_key_records_each_task_up_to_a_call(rt: HostRuntime) {
    let mut screen = holding(&rt, NOTE);
    key(&rt, &mut screen, b'A', "-");
    key(&rt, &mut screen, b'i', "-");
    key(&rt, &mut screen, b'D', "act");
    answer(&rt, &mut screen, "recorded 1 left 4", "(show)");
    second(&rt, &mut screen, "-");
    leads_to(&rt, &mut screen, POLICE, "act 1 police done");
    answer(&rt, &mut screen, "recorded 1 left 3", "(show)");
    looks(&rt, &mut screen, PREMISES);
    // it has ended, also where the desk shows a task again
    second(&rt, &mut screen, "(list)");
    answer(&rt, &mut screen, POLICE, "-");
}

#[test]
fn one_key_records_the_calls_of_keyholders(rt: HostRuntime) {
    let mut screen = holding(&rt, HOLDER1);
    key(&rt, &mut screen, b'D', "-");
    second(&rt, &mut screen, "(list)");
    // the list is on the way: the first act waits for its answer
    key(&rt, &mut screen, b'A', "-");
    leads_to(&rt, &mut screen, MINE, "act 1 holder1 noanswer");
    answer(&rt, &mut screen, "recorded 1 left 3", "(show)");
    leads_to(&rt, &mut screen, HOLDER2, "act 1 holder2 noanswer");
    answer(&rt, &mut screen, "recorded 1 left 2", "(show)");
    answer(&rt, &mut screen, PREMISES, "(list)");
    let mut screen = holding(&rt, HOLDER1);
    key(&rt, &mut screen, b'i', "act");
    answer(&rt, &mut screen, "recorded 1 left 3", "(show)");
    leads_to(&rt, &mut screen, HOLDER2, "act 1 holder2 reached");
    answer(&rt, &mut screen, "recorded 1 left 1", "(show)");
    answer(&rt, &mut screen, HOLDER3, "(list)");
}

// This line behind its first act ends a series: nothing but a look goes out, whatever the desk then shows.
fn ends(rt: &impl Abort, line: &str) {
    let mut screen = holding(rt, NOTE);
    key(rt, &mut screen, b'D', "act");
    looks(rt, &mut screen, line);
    second(rt, &mut screen, "(list)");
    answer(rt, &mut screen, POLICE, "-");
}

#[test]
fn another_answer_ends_a_series(rt: HostRuntime) {
    ends(&rt, "expected police");
    ends(&rt, "recorded 2 left 1");
    ends(&rt, "what");
}

#[test]
fn a_key_ends_a_series(rt: HostRuntime) {
    let mut screen = holding(&rt, NOTE);
    key(&rt, &mut screen, b'D', "act");
    key(&rt, &mut screen, b'D', "-");
    answer(&rt, &mut screen, "recorded 1 left 4", "(show)");
    looks(&rt, &mut screen, POLICE);
    key(&rt, &mut screen, b'D', "act");
    answer(&rt, &mut screen, "recorded 1 left 3", "(show)");
    key(&rt, &mut screen, b'x', "-");
    answer(&rt, &mut screen, NOTE, "(list)");
}

#[test]
fn a_lost_connection_ends_a_series(rt: HostRuntime) {
    let mut screen = holding(&rt, NOTE);
    key(&rt, &mut screen, b'D', "act");
    assert!(rt; sent(&screen.lost()) == "-", "lost");
    assert!(rt; sent(&screen.made()) == "-", "made");
    typed(&rt, &mut screen, b"ann\r1234");
    key(&rt, &mut screen, b'\r', "login");
    answer(&rt, &mut screen, "ok ann", "(show)");
    looks(&rt, &mut screen, POLICE);
}

#[test]
fn a_lost_connection(rt: HostRuntime) {
    let mut screen = at_work(&rt);
    key(&rt, &mut screen, b'n', "next");
    assert!(rt; sent(&screen.lost()) == "-", "lost");
    second(&rt, &mut screen, "-");
    key(&rt, &mut screen, b'n', "-");
    assert!(rt; sent(&screen.made()) == "-", "made");
    second(&rt, &mut screen, "-");
    answer(&rt, &mut screen, "claimed 1 burglary 1234", "-");
    second(&rt, &mut screen, "-");
}

#[test]
fn nothing_but_a_key_ends_the_typing_of_a_pin(rt: HostRuntime) {
    let mut screen = Screen::new();
    let _ = screen.made();
    typed(&rt, &mut screen, b"ann\r98");
    let _ = screen.lost();
    let _ = screen.made();
    // the rest of it is no PIN, and no name
    typed(&rt, &mut screen, b"76\r1234");
    key(&rt, &mut screen, b'\r', "login");
}

#[test]
fn the_bell(rt: HostRuntime) {
    let mut screen = at_work(&rt);
    second(&rt, &mut screen, "(list)");
    rings(&rt, &mut screen, "list 1 1/tamper/1234/-", false);
    second(&rt, &mut screen, "(list)");
    rings(
        &rt,
        &mut screen,
        "list 2 2/gas/1234/- 1/tamper/1234/-",
        true,
    );
    for _ in 0..19u8 {
        let reaction = screen.second();
        assert!(rt; !reaction.rung, "within 20 seconds");
    }
    let reaction = screen.second();
    assert!(rt; reaction.rung, "after 20 seconds");
    let _ = screen.key(b'm');
    for _ in 0..60u8 {
        let reaction = screen.second();
        assert!(rt; !reaction.rung, "silenced");
    }
    let reaction = screen.second();
    assert!(rt; reaction.rung, "after a minute");
}
