// What records were, in fields.
ghost use Rattle.std.specs.Prelude.{◌≡◌, ◌+◌, ◌*◌, ◌≤◌, ◌++◌, length};
ghost use Rattle.std.specs.List.{flat_map, find};
ghost use Rattle.arc_data.specs.Incidents.{has_number};
ghost use Rattle.arc_data.specs.WellFormed.{IsWellFormed};
ghost use Rattle.book_lines.specs.Fields.{data_field, fields_of, got_fields, incident_fields, order_fields, own_fields, raised_field, signal_field};

use crate::names::{code_name, kind_name, outcome_name};
use crate::page::Page;
use crate::words::{part, put_printed};
use arc_data::{Carried, Event, Incident, Reply, Token, Txt};
use incidents::Table;

/// Puts what a record was, in fields.
#[tactic(auto, unfolding(crate::specs::Fields::fields_of))]
pub(crate) fn put_fields(
    page: &mut Page,
    event: &Event,
    reply: &Reply,
    carried: &[Carried],
    table: &Table,
)
    requires formed { IsWellFormed event.now }
    requires few { length carried.now ≤ 8000 }
    requires room { length page.old ≤ 67000 }
    ensures text { page.new ≡ page.old ++ fields_of table.now.incidents carried.now event.now reply.now }
    ensures room { length page.new ≤ length page.old + 430000 }
{
    match event {
        Event::Adopt { text } => {
            put_own(page, b"adopt", b"");
            page.put_number(text.count() as u64);
            page.put(b"\t\t");
        }
        Event::Start => {
            put_own(page, b"start", b"");
            page.put(b"\t\t");
        }
        Event::Message { message, via } => {
            put_own(page, b"message", message.account.bytes());
            put_signal_fields(page, carried);
            page.put(b"\t");
            put_data(page, message.token, message.content.bytes());
            page.put(b"\t");
            page.put(via.bytes());
        }
        Event::Beat { account } => {
            put_own(page, b"heartbeat", account.bytes());
            page.put(b"\t\t");
        }
        Event::Tick => {
            put_own(page, b"tick", b"");
            put_raised_fields(page, carried);
            page.put(b"\t\t");
        }
        Event::Claim { operator, number } => {
            put_order_fields(page, b"claim", operator, *number, table);
            page.put(b"\t\t");
        }
        Event::Next { operator } => {
            put_got_fields(page, operator, reply, table);
            page.put(b"\t\t");
        }
        Event::Act {
            operator,
            number,
            step,
            outcome,
        } => {
            put_order_fields(page, b"act", operator, *number, table);
            page.put_step(*step);
            page.put(b" ");
            page.put(outcome_name(*outcome));
            page.put(b"\t\t");
        }
        Event::Release { operator, number } => {
            put_order_fields(page, b"release", operator, *number, table);
            page.put(b"\t\t");
        }
        Event::Close {
            operator,
            number,
            code,
        } => {
            put_order_fields(page, b"close", operator, *number, table);
            page.put(code_name(*code));
            page.put(b"\t\t");
        }
        Event::Show { .. } | Event::List => {}
    }
}

/// Puts the fields up to the details of a record that is no operator's.
pub(crate) fn put_own(page: &mut Page, what: &[u8], account: &[u8])
    requires what { length what.now ≤ 20 }
    requires account { length account.now ≤ 32 }
    requires room { length page.old ≤ 67000 }
    ensures text { page.new ≡ page.old ++ own_fields what.now account.now }
    ensures size { length page.new ≤ length page.old + 60 }
{
    page.put(what);
    page.put(b"\t\t\t\t");
    page.put(account);
    page.put(b"\t\t");
}

// Puts the fields up to the details of what an operator did with the incident of a number.
fn put_order_fields(page: &mut Page, what: &[u8], operator: &Txt, number: u64, table: &Table)
    requires what { length what.now ≤ 20 }
    requires room { length page.old ≤ 67000 }
    ensures text { page.new ≡ page.old ++ order_fields what.now operator.now number table.now.incidents }
    ensures size { length page.new ≤ length page.old + 160 }
{
    page.put(what);
    page.put(b"\t");
    page.put(operator.bytes());
    page.put(b"\t");
    page.put_number(number);
    page.put(b"\t");
    put_incident(page, table, number);
}

// Puts the class, the account and the moment of the open incident of a number, where there is one.
fn put_incident(page: &mut Page, table: &Table, number: u64)
    requires room { length page.old ≤ 68000 }
    ensures text { page.new ≡ page.old ++ incident_fields (find (has_number number) table.now.incidents) }
    ensures size { length page.new ≤ length page.old + 70 }
{
    match table.get(number) {
        Some(incident) => put_incident_fields(page, incident),
        None => page.put(b"\t\t\t"),
    }
}

fn put_incident_fields(page: &mut Page, incident: &Incident)
    requires room { length page.old ≤ 68000 }
    ensures text { page.new ≡ page.old ++ incident_fields (Some incident.now) }
    ensures size { length page.new ≤ length page.old + 70 }
{
    page.put(incident.class.name().as_bytes());
    page.put(b"\t");
    page.put(incident.account.bytes());
    page.put(b"\t");
    page.put_number(incident.at);
    page.put(b"\t");
}

// Puts the fields up to the details of the incident that an operator got, as the reply says.
fn put_got_fields(page: &mut Page, operator: &Txt, reply: &Reply, table: &Table)
    requires room { length page.old ≤ 67000 }
    ensures text { page.new ≡ page.old ++ got_fields operator.now reply.now table.now.incidents }
    ensures size { length page.new ≤ length page.old + 160 }
{
    match reply {
        Reply::Claimed { number, .. } => {
            put_order_fields(page, b"next", operator, *number, table);
        }
        _ => put_own(page, b"next", b""),
    }
}

// Puts the class, the kind and the code of each signal.
fn put_signal_fields(page: &mut Page, carried: &[Carried])
    requires few { length carried.now ≤ 8000 }
    requires room { length page.old ≤ 70040 }
    ensures text { page.new ≡ page.old ++ flat_map signal_field carried.now }
    ensures room { length page.new ≤ length page.old + 53 * length carried.now }
{
    for x in carried {
        put_signal_field(page, x);
    }
}

fn put_signal_field(page: &mut Page, x: &Carried)
    requires { length page.old + 53 ≤ 524288 }
    ensures text { page.new ≡ page.old ++ signal_field x.now }
    ensures size { length page.new ≤ length page.old + 53 }
{
    page.put(x.signal.class.name().as_bytes());
    page.put(b" ");
    page.put(kind_name(x.signal.kind));
    page.put(b" ");
    page.put(x.signal.code.bytes());
    page.put(b";");
}

// Puts the class and the account of each signal that a tick raised.
fn put_raised_fields(page: &mut Page, carried: &[Carried])
    requires few { length carried.now ≤ 8000 }
    requires room { length page.old ≤ 70040 }
    ensures text { page.new ≡ page.old ++ flat_map raised_field carried.now }
    ensures room { length page.new ≤ length page.old + 45 * length carried.now }
{
    for x in carried {
        put_raised_field(page, x);
    }
}

fn put_raised_field(page: &mut Page, x: &Carried)
    requires { length page.old + 45 ≤ 524288 }
    ensures text { page.new ≡ page.old ++ raised_field x.now }
    ensures size { length page.new ≤ length page.old + 45 }
{
    page.put(x.signal.class.name().as_bytes());
    page.put(b" ");
    page.put(x.account.bytes());
    page.put(b";");
}

// Puts the group and the zone of Contact ID data, or SIA data as they were sent.
fn put_data(page: &mut Page, token: Token, content: &[u8])
    requires { length page.old + length content.now + 20 ≤ 524288 }
    ensures text { page.new ≡ page.old ++ data_field token content.now }
    ensures size { length page.new ≤ length page.old + length content.now + 20 }
{
    match token {
        Token::AdmCid => {
            page.put(part(content, 5, 2));
            page.put(b" ");
            page.put(part(content, 8, 3));
        }
        Token::SiaDcs => put_printed(page, content),
    }
}
