// The lines of replies.
ghost use Rattle.std.specs.Prelude.{◌≡◌, ◌≤◌, ◌+◌, ◌*◌, [], ◌++◌, length};
ghost use Rattle.std.specs.List.{flat_map};
ghost use Rattle.desk_wire.specs.Replies.{line_of, welcome_of, claimed, expected, held, listed, missing, numbered, opened, recorded};
ghost use Rattle.desk_wire.specs.Replies.{line_or_dash, row_text, shown, since, yes_or_no};

use crate::line::Line;
use arc_data::{Class, Listing, Reply, Row, Step, Txt, View};

/// Puts the line of a reply.
#[tactic(auto, unfolding(crate::specs::Replies::line_of))]
pub(crate) fn put_reply(line: &mut Line, reply: &Reply)
    requires { line.old ≡ [] }
    ensures { line.new ≡ line_of reply.now }
{
    match reply {
        Reply::Adopted => line.put(b"adopted\n"),
        Reply::Started => line.put(b"started\n"),
        Reply::Taken => line.put(b"taken\n"),
        Reply::Repeat { .. } => line.put(b"repeat\n"),
        Reply::Heard => line.put(b"heard\n"),
        Reply::Raised { count } => put_numbered(line, b"raised ", *count),
        Reply::Claimed {
            number,
            class,
            account,
        } => put_claimed(line, *number, *class, account),
        Reply::Recorded { number, left } => put_recorded(line, *number, *left),
        Reply::Released { number } => put_numbered(line, b"released ", *number),
        Reply::Closed { number } => put_numbered(line, b"closed ", *number),
        Reply::Shown(view) => put_shown(line, view),
        Reply::Listed(listing) => put_listed(line, listing),
        Reply::NotOpen { number } => put_numbered(line, b"not open ", *number),
        Reply::HeldBy { operator } => put_held(line, operator),
        Reply::BusyWith { number } => put_numbered(line, b"busy with ", *number),
        Reply::NotYours { number } => put_numbered(line, b"not yours ", *number),
        Reply::Expected { step } => put_expected(line, *step),
        Reply::Missing { step } => put_missing(line, *step),
        Reply::NoneWaiting => line.put(b"none waiting\n"),
        Reply::Unknown => line.put(b"unknown\n"),
    }
}

/// Puts the line of an operator who has logged in.
#[tactic(auto, unfolding(crate::specs::Replies::welcome_of))]
pub(crate) fn put_welcome(line: &mut Line, name: &Txt)
    requires { line.old ≡ [] }
    ensures { line.new ≡ welcome_of name.now }
{
    line.put(b"ok ");
    line.put_text(name);
    line.put(b"\n");
}

// Puts a text, a number and the end of the line.
fn put_numbered(line: &mut Line, text: &[u8], number: u64)
    requires empty { line.old ≡ [] }
    requires short { length text.now ≤ 32 }
    ensures { line.new ≡ numbered text.now number }
{
    line.put(text);
    line.put_number(number);
    line.put(b"\n");
}

fn put_claimed(line: &mut Line, number: u64, class: Class, account: &Txt)
    requires { line.old ≡ [] }
    ensures { line.new ≡ claimed number class account.now }
{
    line.put(b"claimed ");
    line.put_number(number);
    line.put(b" ");
    line.put_class(class);
    line.put(b" ");
    line.put_text(account);
    line.put(b"\n");
}

fn put_recorded(line: &mut Line, number: u64, left: u64)
    requires { line.old ≡ [] }
    ensures { line.new ≡ recorded number left }
{
    line.put(b"recorded ");
    line.put_number(number);
    line.put(b" left ");
    line.put_number(left);
    line.put(b"\n");
}

fn put_held(line: &mut Line, operator: &Txt)
    requires { line.old ≡ [] }
    ensures { line.new ≡ held operator.now }
{
    line.put(b"held by ");
    line.put_text(operator);
    line.put(b"\n");
}

fn put_expected(line: &mut Line, step: Option<Step>)
    requires { line.old ≡ [] }
    ensures { line.new ≡ expected step }
{
    line.put(b"expected ");
    line.put_step_or_none(step);
    line.put(b"\n");
}

fn put_missing(line: &mut Line, step: Step)
    requires { line.old ≡ [] }
    ensures { line.new ≡ missing step }
{
    line.put(b"missing ");
    line.put_step(step);
    line.put(b"\n");
}

fn put_shown(line: &mut Line, view: &View)
    requires { line.old ≡ [] }
    ensures { line.new ≡ shown view.now }
{
    put_opened(line, view);
    put_since(line, view);
}

// Puts what an incident is, and when it opened.
fn put_opened(line: &mut Line, view: &View)
    requires { line.old ≡ [] }
    ensures text { line.new ≡ opened view.now }
    ensures size { length line.new ≤ 200 }
{
    line.put(b"incident ");
    line.put_number(view.number);
    line.put(b" ");
    line.put_class(view.class);
    line.put(b" ");
    line.put_text(&view.account);
    line.put(b" code ");
    line.put_text(&view.code);
    line.put(b" opened ");
    line.put_number(view.at);
}

// Puts what has become of an incident, and by which line it came.
fn put_since(line: &mut Line, view: &View)
    requires { length line.old ≤ 200 }
    ensures { line.new ≡ since line.old view.now }
{
    line.put(b" signals ");
    line.put_number(view.signals);
    line.put(b" restored ");
    line.put(yes_or_no(view.restored));
    line.put(b" holder ");
    line.put_text_or(&view.holder, b"none");
    line.put(b" next ");
    line.put_step_or_none(view.expected);
    line.put(b" via ");
    line.put(line_or_dash(&view.via));
    line.put(b"\n");
}

fn line_or_dash(via: &Txt) -> &[u8]
    ensures text { result.now ≡ line_or_dash via.now }
    ensures short { length result.now ≤ 32 }
{
    match via.bytes() {
        [] => b"-",
        name => name,
    }
}

fn yes_or_no(answer: bool) -> &'static [u8]
    ensures text { result.now ≡ yes_or_no answer }
    ensures short { length result.now ≤ 3 }
{
    if answer { b"yes" } else { b"no" }
}

fn put_listed(line: &mut Line, listing: &Listing)
    requires { line.old ≡ [] }
    ensures { line.new ≡ listed listing.now }
{
    line.put(b"list ");
    line.put_number(listing.total);
    for i in 0..listing.count() {
        put_row(line, &listing.row(i));
    }
    line.put(b"\n");
}

// Puts an incident of a list.
fn put_row(line: &mut Line, row: &Row)
    requires { length line.old + 99 ≤ 2048 }
    ensures text { line.new ≡ line.old ++ row_text row.now }
    ensures size { length line.new ≤ length line.old + 99 }
{
    line.put(b" ");
    line.put_number(row.number);
    line.put(b"/");
    line.put_class(row.class);
    line.put(b"/");
    line.put_text(&row.account);
    line.put(b"/");
    line.put_text_or(&row.holder, b"-");
}
