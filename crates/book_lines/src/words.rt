// What records were, in words.
ghost use Rattle.std.specs.Prelude.{◌≡◌, ◌+◌, ◌*◌, ◌≤◌, ◌++◌, length, take, drop, map};
ghost use Rattle.std.specs.List.{flat_map, find};
ghost use Rattle.arc_data.specs.Incidents.{has_number};
ghost use Rattle.book_lines.specs.Lines.{about, about_text, content_text, got_text, message_text, order_text, printed, raised_text, signal_text};

use crate::names::kind_name;
use crate::page::Page;
use arc_data::{Carried, Class, Message, Reply, Token, Txt};
use incidents::Table;

/// Puts a message with its signals, the line by which it came, and what else its content tells.
pub(crate) fn put_message(page: &mut Page, message: &Message, via: &Txt, carried: &[Carried])
    requires few { length carried.now ≤ 8000 }
    requires size { length message.now.content ≤ 4095 }
    requires room { length page.old ≤ 70000 }
    ensures text { page.new ≡ page.old ++ message_text message.now via.now carried.now }
    ensures room { length page.new ≤ length page.old + 428200 }
{
    page.put(b"message ");
    page.put(message.account.bytes());
    put_signals(page, carried);
    page.put(b" via ");
    page.put(via.bytes());
    put_content(page, message.token, message.content.bytes());
}

// Puts the class, the kind and the code of each signal.
fn put_signals(page: &mut Page, carried: &[Carried])
    requires few { length carried.now ≤ 8000 }
    requires room { length page.old ≤ 70040 }
    ensures text { page.new ≡ page.old ++ flat_map signal_text carried.now }
    ensures room { length page.new ≤ length page.old + 53 * length carried.now }
{
    for x in carried {
        put_signal(page, x);
    }
}

fn put_signal(page: &mut Page, x: &Carried)
    requires { length page.old + 53 ≤ 524288 }
    ensures text { page.new ≡ page.old ++ signal_text x.now }
    ensures size { length page.new ≤ length page.old + 53 }
{
    page.put(b" ");
    page.put(x.signal.class.name().as_bytes());
    page.put(b" ");
    page.put(kind_name(x.signal.kind));
    page.put(b" ");
    page.put(x.signal.code.bytes());
}

// Puts the group and the zone of Contact ID data, or SIA data as they were sent.
fn put_content(page: &mut Page, token: Token, content: &[u8])
    requires { length page.old + length content.now + 20 ≤ 524288 }
    ensures text { page.new ≡ page.old ++ content_text token content.now }
    ensures size { length page.new ≤ length page.old + length content.now + 20 }
{
    match token {
        Token::AdmCid => {
            page.put(b" group ");
            page.put(part(content, 5, 2));
            page.put(b" zone ");
            page.put(part(content, 8, 3));
        }
        Token::SiaDcs => {
            page.put(b" data ");
            put_printed(page, content);
        }
    }
}

/// So many bytes from a place on, or as many as stand there.
pub(crate) fn part(bytes: &[u8], from: usize, count: usize) -> &[u8]
    ensures part { result.now ≡ take count (drop from bytes.now) }
    ensures short { length result.now ≤ count }
{
    let behind = &bytes[from.min(bytes.len())..];
    &behind[..count.min(behind.len())]
}

/// Puts the bytes, with a question mark for each that no printer shows.
pub(crate) fn put_printed(page: &mut Page, bytes: &[u8])
    requires { length page.old + length bytes.now ≤ 524288 }
    ensures text { page.new ≡ page.old ++ map printed bytes.now }
    ensures size { length page.new ≡ length page.old + length bytes.now }
{
    for b in bytes {
        page.put(&[printed(*b)]);
    }
}

fn printed(byte: u8) -> u8
    ensures { result ≡ printed byte }
{
    if (32..=126).contains(&byte) {
        byte
    } else {
        b'?'
    }
}

/// Puts the class and the account of each signal that a tick raised.
pub(crate) fn put_raised(page: &mut Page, carried: &[Carried])
    requires few { length carried.now ≤ 8000 }
    requires room { length page.old ≤ 70000 }
    ensures text { page.new ≡ page.old ++ flat_map raised_text carried.now }
    ensures room { length page.new ≤ length page.old + 45 * length carried.now }
{
    for x in carried {
        put_one_raised(page, x);
    }
}

fn put_one_raised(page: &mut Page, x: &Carried)
    requires { length page.old + 45 ≤ 524288 }
    ensures text { page.new ≡ page.old ++ raised_text x.now }
    ensures size { length page.new ≤ length page.old + 45 }
{
    page.put(b" ");
    page.put(x.signal.class.name().as_bytes());
    page.put(b" ");
    page.put(x.account.bytes());
}

/// Puts what an operator does with the incident of a number.
pub(crate) fn put_order(page: &mut Page, operator: &Txt, verb: &[u8], number: u64)
    requires verb { length verb.now ≤ 20 }
    requires room { length page.old ≤ 70000 }
    ensures text { page.new ≡ page.old ++ order_text operator.now verb.now number }
    ensures room { length page.new ≤ length page.old + 72 }
{
    page.put(operator.bytes());
    page.put(verb);
    page.put_number(number);
}

/// Puts the class and the account of the open incident of a number, where there is one.
pub(crate) fn put_about(page: &mut Page, table: &Table, number: u64)
    requires { length page.old ≤ 71000 }
    ensures text { page.new ≡ page.old ++ about (find (has_number number) table.now.incidents) }
    ensures room { length page.new ≤ length page.old + 60 }
{
    if let Some(incident) = table.get(number) {
        put_about_it(page, incident.class, &incident.account);
    }
}

fn put_about_it(page: &mut Page, class: Class, account: &Txt)
    requires { length page.old ≤ 72000 }
    ensures text { page.new ≡ page.old ++ about_text class account.now }
    ensures room { length page.new ≤ length page.old + 60 }
{
    page.put(b": ");
    page.put(class.name().as_bytes());
    page.put(b" ");
    page.put(account.bytes());
}

/// Puts the incident that an operator got, as the reply says.
pub(crate) fn put_got(page: &mut Page, operator: &Txt, reply: &Reply)
    requires { length page.old ≤ 70000 }
    ensures text { page.new ≡ page.old ++ got_text operator.now reply.now }
    ensures room { length page.new ≤ length page.old + 150 }
{
    match reply {
        Reply::Claimed {
            number,
            class,
            account,
        } => {
            put_order(page, operator, b" gets ", *number);
            put_about_it(page, *class, account);
        }
        _ => page.put(operator.bytes()),
    }
}
