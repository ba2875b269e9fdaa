// The rows of a page.
ghost use Rattle.std.specs.Prelude.{◌≡◌, slice_index_or, []};
ghost use Rattle.screen_page.specs.Pages.{body_row, heading_row, help_row, help_texts, holder_text, is_at_work, keys_row, letter_of, listed, listed_row};
ghost use Rattle.screen_page.specs.Pages.{mark_of, page_row, past_row, queue_row, shown_by, tone_of, work_row};
ghost use Rattle.screen_page.specs.Pasts.{newest};

use crate::mine::own_row;
use crate::past::Past;
use crate::prompts::{outcome, prompt, status};
use crate::sites::Sites;
use crate::strip::{Strip, strip_of};
use crate::tone::Tone;
use arc_data::Txt;
use desk_screen::{Screen, Waiting};

/// What is shown below the first rows.
#[derive(Clone, Copy, PartialEq, Eq)]
pub enum Shown {
    Work,
    Help,
    History,
}

/// The size of a terminal.
#[derive(Clone, Copy, PartialEq, Eq)]
pub struct Size {
    pub rows: u16,
    pub columns: u16,
}

/// What a page is made of. The moment is in seconds since 1970, GMT.
#[derive(Drop)]
pub struct Page<'a> {
    pub screen: &'a Screen,
    pub sites: &'a Option<Sites>,
    pub past: &'a Past,
    pub shown: Shown,
    pub size: Size,
    pub moment: u64,
}

fn letter_of(priority: u8) -> &'static [u8]
    ensures { result.now ≡ letter_of priority }
{
    match priority {
        1 => b"A",
        2 => b"B",
        3 => b"C",
        _ => b"D",
    }
}

fn tone_of(priority: u8) -> Tone
    ensures { result ≡ tone_of priority }
{
    match priority {
        1 => Tone::Grave,
        2 => Tone::Urgent,
        3 => Tone::Lesser,
        _ => Tone::Plainly,
    }
}

fn mark_of(holder: &Option<Txt>) -> &'static [u8]
    ensures { result.now ≡ mark_of holder.now }
{
    match holder {
        None => b"! ",
        Some(_) => b"  ",
    }
}

fn holder_text(holder: &Option<Txt>) -> &[u8]
    ensures { result.now ≡ holder_text holder.now }
{
    match holder {
        None => b"waits for somebody",
        Some(name) => name.bytes(),
    }
}

// An incident of the list.
#[tactic(auto, unfolding(crate::specs::Pages::listed_row))]
fn listed_row(waiting: &Waiting, clock: u64) -> Strip
    ensures { result ≡ listed_row waiting.now clock }
{
    let row = &waiting.row;
    let mut strip = Strip::new();
    strip.put(letter_of(row.class.priority()));
    strip.put(mark_of(&row.holder));
    strip.put_number(row.number);
    strip.put_to(12);
    strip.put(row.class.name().as_bytes());
    strip.put_to(25);
    strip.put(row.account.bytes());
    strip.put_to(43);
    strip.put_age(clock.saturating_sub(waiting.since));
    strip.put_to(52);
    strip.put(holder_text(&row.holder));
    strip
}

// It has the colour of its priority where it waits for somebody.
fn listed(waiting: &Waiting, clock: u64) -> (Tone, Strip)
    ensures { result ≡ listed waiting.now clock }
{
    let tone = if waiting.row.holder.is_none() {
        tone_of(waiting.row.class.priority())
    } else {
        Tone::Faint
    };
    (tone, listed_row(waiting, clock))
}

fn queue_row(queue: &[Waiting], clock: u64, place: usize) -> (Tone, Strip)
    ensures { result ≡ queue_row queue.now clock place }
{
    match queue.get(place) {
        Some(waiting) => listed(waiting, clock),
        None => (Tone::Plainly, Strip::new()),
    }
}

fn help_text(place: usize) -> &'static [u8]
    ensures { result.now ≡ slice_index_or help_texts place [] }
{
    match place {
        0 => b"n      take the most urgent incident that nobody holds",
        1 => b"12c    claim incident 12",
        2 => b"s, 12s show your incident, or incident 12",
        3 => b"r a    the call: reached, or no answer",
        4 => b"d D    the step is done; each task up to the next call is",
        5 => b"A      no keyholder answered, from the one at NOW on",
        6 => b"u i o p  keyholder 1, 2, 3, 4 reached, and none before him",
        7 => b"l      release your incident",
        8 => b"Ry     close it as real: R, and then y",
        9 => b"Fy Ty  close it as false, as test",
        10 => b"m      silence the bell for a minute",
        11 => b"h      what you did in this sitting",
        12 => b"qy     leave; Ctrl-C leaves at once",
        13 => b"A B C D are the priorities 1 to 4; ! waits for somebody",
        14 => b"the bell rings at a new incident of priority 1 or 2, and each 20 s while one waits",
        15 => b"any key goes back to the incidents",
        _ => b"",
    }
}

fn help_row(place: usize) -> (Tone, Strip)
    ensures { result ≡ help_row place }
{
    (Tone::Plainly, strip_of(help_text(place)))
}

// The text of an answered command, the newest first.
fn newest(rows: &[Strip], place: usize) -> &[u8]
    ensures { result.now ≡ newest rows.now place }
{
    if place < rows.len() {
        rows[rows.len() - (place + 1)].bytes()
    } else {
        b""
    }
}

fn past_row(rows: &[Strip], place: usize) -> (Tone, Strip)
    ensures { result ≡ past_row rows.now place }
{
    (Tone::Plainly, strip_of(newest(rows, place)))
}

fn keys_row() -> (Tone, Strip)
    ensures { result ≡ keys_row }
{
    let strip = strip_of(
        b"n next c claim s show r a d step A D uiop steps l release RFT close m mute ? help",
    );
    (Tone::Faint, strip)
}

fn heading_row() -> (Tone, Strip)
    ensures { result ≡ heading_row }
{
    let strip = strip_of(b"   number   class        account           seen     holder");
    (Tone::Heading, strip)
}

// At work: the own incident, and the incidents of the list.
fn work_row(page: &Page, place: usize) -> (Tone, Strip)
    ensures { result ≡ work_row page.now.screen.now page.now.sites.now page.now.past.now page.now.moment place }
{
    let screen = page.screen;
    if place < 4 {
        own_row(
            page.sites,
            page.past.acts(),
            page.moment,
            screen.own(),
            place,
        )
    } else if place == 4 {
        heading_row()
    } else {
        queue_row(screen.queue(), screen.clock(), place - 5)
    }
}

// The rows below the first three.
fn body_row(page: &Page, place: usize) -> (Tone, Strip)
    ensures { result ≡ body_row page.now.shown page.now.screen.now page.now.sites.now page.now.past.now page.now.moment place }
{
    match page.shown {
        Shown::Help => help_row(place),
        Shown::History => past_row(page.past.rows(), place),
        Shown::Work => work_row(page, place),
    }
}

/// The row of a page at an index from 0 on: its colour and its text.
pub fn row(page: &Page, index: usize) -> (Tone, Strip)
    ensures { result ≡ page_row page.now.screen.now page.now.sites.now page.now.past.now page.now.shown page.now.size.rows page.now.moment index }
{
    let last = usize::from(page.size.rows.saturating_sub(1));
    let screen = page.screen;
    match index {
        0 => status(screen.session(), screen.total()),
        1 => prompt(screen),
        2 => outcome(&screen.session().undone, screen.answered(), screen.series()),
        _ if index == last => keys_row(),
        _ => body_row(page, index - 3),
    }
}

/// Whether a key is for the screen: where help or the past is shown, it goes back to the incidents and does nothing else.
pub fn is_at_work(shown: Shown) -> bool
    ensures { result ≡ is_at_work shown }
{
    match shown {
        Shown::Work => true,
        Shown::Help => false,
        Shown::History => false,
    }
}

/// What is shown behind a key: at work help, what was done, or else the incidents.
pub fn shown_after(shown: Shown, key: u8, is_logged: bool) -> Shown
    ensures { result ≡ shown_by shown key is_logged }
{
    match (shown, key) {
        (Shown::Work, b'?') => Shown::Help,
        (Shown::Work, b'h') if is_logged => Shown::History,
        _ => Shown::Work,
    }
}
