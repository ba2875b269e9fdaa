// Putting the line of a summary.
ghost use Rattle.std.specs.Prelude.{◌≡◌, ◌+◌, ◌≤◌, ◌++◌, length};
ghost use Rattle.arc_data.specs.Moments.{IsMoment};
ghost use Rattle.book_lines.specs.Asked.{AreInRange};
ghost use Rattle.book_lines.specs.Clocks.{IsNear};
ghost use Rattle.book_lines.specs.Summaries.{held_fields, held_line, held_text, held_told, held_words, is_held_asked};

use crate::choice::{is_since, is_until};
use crate::fields::put_own;
use crate::options::Options;
use crate::page::Page;
use crate::writing::put_moment;

/// What a summary holds.
#[derive(Clone, Copy)]
pub struct Held {
    /// The number of the last record that is summed up.
    pub recorded: u64,
    /// Its moment, in seconds from 1970 on.
    pub last: u64,
    /// The accounts of which something is known.
    pub accounts: u64,
    /// The incidents that were opened so far.
    pub opened: u64,
    /// Those of them that are open.
    pub still_open: u64,
}

/// Puts the line of a summary that holds this, where the options ask for it: they do by its number and its moment, but not where they ask
/// for one account, incident or operator. At most 65,536 bytes stand on the page.
pub fn put_summary(page: &mut Page, options: &Options, held: &Held)
    requires range { AreInRange options.now }
    requires moment { IsMoment held.now.last }
    requires room { length page.old ≤ 65536 }
    ensures { page.new ≡ page.old ++ held_line options.now held.now }
{
    if is_held_asked(options, held) {
        put_held(page, options, held);
    }
}

// Whether the options ask for the line of a summary.
fn is_held_asked(options: &Options, held: &Held) -> bool
    requires range { AreInRange options.now }
    requires moment { IsMoment held.now.last }
    ensures { result ≡ is_held_asked options.now held.now }
{
    is_since(&options.clock, &options.since, held.recorded, held.last)
        && is_until(&options.clock, &options.until, held.recorded, held.last)
        && options.account.is_none()
        && options.incident.is_none()
        && options.operator.is_none()
}

// Puts the line of a summary that holds this.
fn put_held(page: &mut Page, options: &Options, held: &Held)
    requires near { IsNear options.now.clock }
    requires moment { IsMoment held.now.last }
    requires room { length page.old ≤ 65536 }
    ensures { page.new ≡ page.old ++ held_told options.now.tabs options.now.clock held.now }
{
    page.put_number(held.recorded);
    if options.tabs {
        page.put(b"\t");
        page.put_number(held.last);
        page.put(b"\t");
        put_moment(page, &options.clock, held.last);
        page.put(b"\t");
        put_held_fields(page, held);
    } else {
        page.put(b" ");
        put_moment(page, &options.clock, held.last);
        page.put(b" ");
        put_held_words(page, held);
    }
    page.put(b"\n");
}

// Puts what a summary holds, in words.
#[tactic(auto, unfolding(crate::specs::Summaries::held_words))]
fn put_held_words(page: &mut Page, held: &Held)
    requires room { length page.old ≤ 67000 }
    ensures text { page.new ≡ page.old ++ held_words held.now }
    ensures size { length page.new ≤ length page.old + 300 }
{
    page.put(b"summary ");
    put_held_text(page, held);
}

// Puts what a summary holds, in fields.
#[tactic(auto, unfolding(crate::specs::Summaries::held_fields))]
fn put_held_fields(page: &mut Page, held: &Held)
    requires room { length page.old ≤ 67000 }
    ensures text { page.new ≡ page.old ++ held_fields held.now }
    ensures size { length page.new ≤ length page.old + 300 }
{
    put_own(page, b"summary", b"");
    put_held_text(page, held);
    page.put(b"\t\t");
}

// Puts what a summary holds.
#[tactic(auto, unfolding(crate::specs::Summaries::held_text))]
fn put_held_text(page: &mut Page, held: &Held)
    requires room { length page.old ≤ 67100 }
    ensures text { page.new ≡ page.old ++ held_text held.now }
    ensures size { length page.new ≤ length page.old + 200 }
{
    page.put(b"accounts ");
    page.put_number(held.accounts);
    page.put(b" incidents ");
    page.put_number(held.opened);
    page.put(b" open ");
    page.put_number(held.still_open);
}
