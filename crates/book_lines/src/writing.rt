// Putting the line of a record.
ghost use Rattle.std.specs.Prelude.{◌≡◌, ◌+◌, ◌≤◌, ◌++◌, codes, decimal, length};
ghost use Rattle.arc_data.specs.Moments.{IsMoment};
ghost use Rattle.arc_data.specs.WellFormed.{IsWellFormed};
ghost use Rattle.book_lines.specs.Clocks.{IsNear, IsSmall, hours_text, moment_text, suffix, text_at};
ghost use Rattle.book_lines.specs.Dates.{date_time};
ghost use Rattle.book_lines.specs.Lines.{words_of};
ghost use Rattle.book_lines.specs.Telling.{told};

use crate::clock::{Clock, Offset};
use crate::fields::put_fields;
use crate::names::{code_name, outcome_name};
use crate::options::Options;
use crate::page::Page;
use crate::words::{put_about, put_got, put_message, put_order, put_raised};
use arc_data::{Carried, Event, Reply};
use civil_time::stamp_of;
use incidents::Table;

/// Puts the line of the record of this number, made at a moment (seconds since 1970), as the options ask for it: its event, its reply, the
/// signals that it carries, and the incidents that were open before it. At most 65,536 bytes stand on the page, and the line has at most
/// 440,000.
pub fn put_line(
    page: &mut Page,
    options: &Options,
    number: u64,
    at: u64,
    event: &Event,
    reply: &Reply,
    carried: &[Carried],
    table: &Table,
)
    requires near { IsNear options.now.clock }
    requires moment { IsMoment at }
    requires formed { IsWellFormed event.now }
    requires few { length carried.now ≤ 8000 }
    requires room { length page.old ≤ 65536 }
    ensures { page.new ≡ page.old ++ told options.now number at table.now.incidents carried.now event.now reply.now }
{
    page.put_number(number);
    if options.tabs {
        page.put(b"\t");
        page.put_number(at);
        page.put(b"\t");
        put_moment(page, &options.clock, at);
        page.put(b"\t");
        put_fields(page, event, reply, carried, table);
    } else {
        page.put(b" ");
        put_moment(page, &options.clock, at);
        page.put(b" ");
        put_words(page, event, reply, carried, table);
    }
    page.put(b"\n");
}

/// Puts the date and the time of a moment by a clock.
pub(crate) fn put_moment(page: &mut Page, clock: &Clock, at: u64)
    requires near { IsNear clock.now }
    requires moment { IsMoment at }
    requires room { length page.old ≤ 66000 }
    ensures text { page.new ≡ page.old ++ moment_text clock.now at }
    ensures size { length page.new ≤ length page.old + 40 }
{
    put_moment_at(page, &clock.offset(at), at);
}

// Puts the date and the time of a moment by a clock that is so far from GMT then.
#[tactic(auto, unfolding(crate::specs::Clocks::text_at))]
fn put_moment_at(page: &mut Page, offset: &Offset, at: u64)
    requires small { IsSmall offset.now }
    requires moment { IsMoment at }
    requires room { length page.old ≤ 66000 }
    ensures text { page.new ≡ page.old ++ text_at offset.now at }
    ensures size { length page.new ≤ length page.old + 40 }
{
    match offset.shown(at) {
        Some(seconds) => {
            put_date_time(page, seconds);
            put_suffix(page, offset);
        }
        None => {
            put_date_time(page, at);
            page.put(b"+00:00");
        }
    }
}

// Puts how far a clock is from GMT.
fn put_suffix(page: &mut Page, offset: &Offset)
    requires small { IsSmall offset.now }
    requires room { length page.old ≤ 66100 }
    ensures text { page.new ≡ page.old ++ suffix offset.now }
    ensures size { length page.new ≤ length page.old + 6 }
{
    match offset {
        Offset::Gmt => {}
        Offset::Ahead(minutes) => {
            page.put(b"+");
            put_hours(page, *minutes);
        }
        Offset::Behind(minutes) => {
            page.put(b"-");
            put_hours(page, *minutes);
        }
    }
}

// Puts hours and minutes.
fn put_hours(page: &mut Page, minutes: u16)
    requires near { minutes ≤ 1560 }
    requires room { length page.old ≤ 66200 }
    ensures text { page.new ≡ page.old ++ hours_text minutes }
    ensures size { length page.new ≤ length page.old + 5 }
{
    let (hours, minutes) = ((minutes / 60) as u8, (minutes % 60) as u8);
    page.put(&[
        b'0' + hours / 10,
        b'0' + hours % 10,
        b':',
        b'0' + minutes / 10,
        b'0' + minutes % 10,
    ]);
}

// Puts the date and the time of a moment in GMT.
fn put_date_time(page: &mut Page, at: u64)
    requires moment { IsMoment at }
    requires room { length page.old ≤ 66000 }
    ensures text { page.new ≡ page.old ++ date_time at }
    ensures size { length page.new ≤ length page.old + 19 }
{
    let stamp = stamp_of(at);
    page.put(&[
        stamp[16], stamp[17], stamp[18], stamp[19], b'-', stamp[10], stamp[11], b'-', stamp[13],
        stamp[14], b' ', stamp[1], stamp[2], stamp[3], stamp[4], stamp[5], stamp[6], stamp[7],
        stamp[8],
    ]);
}

// Puts what a record was, in words.
#[tactic(auto, unfolding(crate::specs::Lines::words_of))]
fn put_words(page: &mut Page, event: &Event, reply: &Reply, carried: &[Carried], table: &Table)
    requires formed { IsWellFormed event.now }
    requires few { length carried.now ≤ 8000 }
    requires room { length page.old ≤ 67000 }
    ensures text { page.new ≡ page.old ++ words_of table.now.incidents carried.now event.now reply.now }
    ensures room { length page.new ≤ length page.old + 430000 }
{
    match event {
        Event::Adopt { text } => put_adopt(page, text.count() as u64),
        Event::Start => page.put(b"start"),
        Event::Message { message, via } => put_message(page, message, via, carried),
        Event::Beat { account } => {
            page.put(b"heartbeat ");
            page.put(account.bytes());
        }
        Event::Tick => {
            page.put(b"tick");
            put_raised(page, carried);
        }
        Event::Claim { operator, number } => {
            put_order(page, operator, b" claims ", *number);
            put_about(page, table, *number);
        }
        Event::Next { operator } => put_got(page, operator, reply),
        Event::Act {
            operator,
            number,
            step,
            outcome,
        } => {
            put_order(page, operator, b" acts on ", *number);
            page.put(b": ");
            page.put_step(*step);
            page.put(b" ");
            page.put(outcome_name(*outcome));
        }
        Event::Release { operator, number } => put_order(page, operator, b" releases ", *number),
        Event::Close {
            operator,
            number,
            code,
        } => {
            put_order(page, operator, b" closes ", *number);
            page.put(b" as ");
            page.put(code_name(*code));
            put_about(page, table, *number);
        }
        Event::Show { .. } | Event::List => {}
    }
}

// Puts that a setup text of so many bytes came into force.
fn put_adopt(page: &mut Page, bytes: u64)
    requires { length page.old ≤ 67000 }
    ensures text { page.new ≡ page.old ++ codes "adopt " ++ decimal bytes ++ codes " bytes" }
    ensures room { length page.new ≤ length page.old + 32 }
{
    page.put(b"adopt ");
    page.put_number(bytes);
    page.put(b" bytes");
}
