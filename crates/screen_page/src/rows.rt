// The rows whose text is settled.
ghost use Rattle.std.specs.Prelude.{◌≡◌};
ghost use Rattle.screen_page.specs.Texts.{answered_row, link_word, login_row, status_row, undone_row, with_user};

use crate::commands::spelled;
use crate::strip::Strip;
use arc_data::Txt;
use desk_screen::{Command, Deed};

const STARS: [u8; 32] = [b'*'; 32];

// What tells the state of the connection.
fn link_word(connected: bool) -> &'static [u8]
    ensures { result.now ≡ link_word connected }
{
    if connected {
        b"connected"
    } else {
        b"NO CONNECTION TO THE DESK"
    }
}

/// The connection, the operator, for how long the desk has said nothing, and how many incidents are open.
#[tactic(auto, unfolding(crate::specs::Texts::status_row))]
pub(crate) fn status_row(connected: bool, user: &Option<Txt>, silence: u64, total: u64) -> Strip
    ensures { result ≡ status_row connected user.now silence total }
{
    let mut strip = Strip::new();
    strip.put(link_word(connected));
    put_user(&mut strip, user);
    strip.put(b"   the desk is silent for ");
    strip.put_age(silence);
    strip.put(b"   open: ");
    strip.put_number(total);
    strip
}

#[tactic(auto, unfolding(crate::specs::Texts::with_user))]
fn put_user(strip: &mut Strip, user: &Option<Txt>)
    ensures { strip.new ≡ with_user strip.old user.now }
{
    if let Some(name) = user {
        strip.put(b"   ");
        strip.put(name.bytes());
    }
}

/// What is typed to log in with. Of the digits of a PIN it tells how many there are, and no more.
pub(crate) fn login_row(name: &Option<Txt>, typed: &Txt) -> Strip
    ensures { result ≡ login_row name.now typed.now }
{
    let mut strip = Strip::new();
    strip.put(b"log in, name: ");
    match name {
        None => strip.put(typed.bytes()),
        Some(name) => {
            strip.put(name.bytes());
            strip.put(b"  PIN: ");
            strip.put(&STARS[..typed.bytes().len()]);
        }
    }
    strip
}

/// A command that was lost with its connection.
pub(crate) fn undone_row(command: &Command) -> Strip
    ensures { result ≡ undone_row command.now }
{
    let mut strip = Strip::new();
    strip.put(b"NOT DONE, no answer came: ");
    strip.put(spelled(command).bytes());
    strip
}

/// An answer, behind its own command.
pub fn answered_row(deed: &Deed) -> Strip
    ensures { result ≡ answered_row deed.now }
{
    let mut strip = Strip::new();
    strip.put(spelled(&deed.command).bytes());
    strip.put(b" > ");
    strip.put(deed.answer.bytes());
    strip
}
