// What is known of each account.
ghost use Rattle.std.specs.Prelude.{◌≡◌, ◌≤◌, ◌<◌, ◌+◌, ◌++◌, ◌∷◌, [], List, ℕ, false, is_some, None, length, max, map, take, OnOk};
ghost use Rattle.std.specs.List.{find, All};
ghost use Rattle.std.specs.Option.{option_map};
ghost use Rattle.std.specs.Str.{bytes_eq};
ghost use Rattle.indexmap.specs.IndexMap.{get, spare as spare_of};
ghost use Rattle.centre_rules.specs.Answers.{repeats};
ghost use Rattle.centre_rules.specs.Marks.{Starts, Hears, Sends, Carries};
ghost use Rattle.known_accounts.specs.Rows.{row_at, row_in, now_heard, blank, HasRoom, IsRowOf, StandsAt, MakesRow, KeepsRows, Marked, Tells};

use crate::row::{Known, Row};
use arc_data::{Carried, Memory, Message, Txt};
use indexmap::IndexMap;
use repeat_window::{Seen, Window};
use std::alloc::Global;
use std::marker::Model;

/// What is known of each account: of one that has no row, only the last Start, at which each account is heard. Contracts see
/// the last Start, the rows, and for how many further accounts there is memory.
pub struct AccountRows {
    pub(crate) start: Option<u64>,
    pub(crate) by_account: IndexMap<Txt, Row>,
    // Empty windows, for accounts that get a row later.
    pub(crate) windows: Vec<Window>,
}

// Written out: one call wherever one is dropped, where a derived drop is spelled out at each exit.
impl Drop for AccountRows {
    fn drop(self) {
        let AccountRows {
            start: _,
            by_account,
            windows,
        } = self;
        drop(by_account);
        drop(windows);
    }
}

impl Model for AccountRows {
    ghost use Rattle.std.specs.Prelude.{length, map};
    ghost use Rattle.known_accounts.specs.Rows.{RowsValue, row_at};
    ghost use Rattle.known_accounts.specs.Spared.{IsSpared};

    ghost Value = { RowsValue };

    ghost view = { λ r. record { start = r.start; rows = map row_at r.by_account.entries; room = length r.windows.items } };

    ghost invariant = { λ r. IsSpared r.windows.items r.by_account };
}

impl AccountRows {
    /// Nothing is known. Takes no memory.
    pub fn new(alloc: Global) -> AccountRows
        ensures { result ≡ record { start = None; rows = []; room = 0 } }
    {
        AccountRows {
            start: None,
            by_account: IndexMap::new(alloc),
            windows: Vec::new(alloc),
        }
    }

    /// Takes memory for so many accounts, and for no more. The error is want of memory.
    pub fn reserve(&mut self, alloc: Global, more: usize) -> Result<(), Memory>
        ensures start { self.new.start ≡ self.old.start }
        ensures rows { self.new.rows ≡ self.old.rows }
        ensures room { self.old.room ≤ self.new.room }
        ensures enough { OnOk result (more ≤ self.new.room) }
        ensures most { self.new.room ≤ max self.old.room more }
    {
        let Ok(()) = self.by_account.reserve(more) else {
            return Err(Memory);
        };
        fill(alloc, &mut self.windows, more)
    }

    /// A run starts: each account is heard.
    pub fn start(&mut self, at: u64)
        ensures marked { Marked (Starts at) self.old self.new }
        ensures kept { KeepsRows self.old self.new }
    {
        self.start = Some(at);
        hear_all(&mut self.by_account, at);
    }

    /// The place of the row of an account, where it has one.
    pub fn row_of(&self, account: &Txt) -> Option<usize>
        ensures { IsRowOf account.now result self.now.rows }
    {
        self.by_account.get_index_of(account)
    }

    /// The place of the row of an account, which is made where it has none: then it is known that the account was heard at the last
    /// Start, and nothing more.
    pub fn place(&mut self, account: &Txt) -> usize
        requires { HasRoom (account.now ∷ []) self.old }
        ensures there { StandsAt account.now result self.new.rows }
        ensures made { MakesRow account.now self.old self.new }
    {
        let row = self.row_of(account);
        self.place_from(row, account)
    }

    /// The same of an account whose row was looked up already.
    pub fn place_from(&mut self, row: Option<usize>, account: &Txt) -> usize
        requires room { HasRoom (account.now ∷ []) self.old }
        requires row { IsRowOf account.now row self.old.rows }
        ensures there { StandsAt account.now result self.new.rows }
        ensures made { MakesRow account.now self.old self.new }
    {
        match row {
            Some(place) => place,
            None => {
                let place = self.by_account.len();
                make_row(&mut self.by_account, &mut self.windows, self.start, account);
                place
            }
        }
    }

    /// The account whose row stands at this place is heard.
    pub fn hear(&mut self, place: usize, at: u64)
        requires { place < length self.old.rows }
        ensures marked { (account : List ℕ) → StandsAt account place self.old.rows → Marked (Hears account at) self.old self.new }
        ensures kept { KeepsRows self.old self.new }
    {
        let Some(row) = self.by_account.get_index_mut(place) else {
            unreachable!()
        };
        row.hear(at);
    }

    /// A message of the account whose row stands at this place is recorded.
    pub fn send(&mut self, place: usize, message: Message, at: u64)
        requires { StandsAt message.account place self.old.rows }
        ensures marked { Marked (Sends message at) self.old self.new }
        ensures kept { KeepsRows self.old self.new }
    {
        let Some(row) = self.by_account.get_index_mut(place) else {
            unreachable!()
        };
        row.send(Seen { message, at });
    }

    /// The account whose row stands at this place has a signal.
    pub fn carry(&mut self, place: usize, x: &Carried)
        requires { StandsAt x.now.account place self.old.rows }
        ensures marked { Marked (Carries x.now) self.old self.new }
        ensures kept { KeepsRows self.old self.new }
    {
        let Some(row) = self.by_account.get_index_mut(place) else {
            unreachable!()
        };
        row.carry(x);
    }

    /// The last Start.
    pub fn last_start(&self) -> Option<u64>
        ensures { result ≡ self.now.start }
    {
        self.start
    }

    /// What deadlines of an account go by.
    pub fn known(&self, account: &Txt) -> Known
        ensures { Tells (row_in self.now account.now) result }
    {
        match self.by_account.get(account) {
            Some(row) => row.known(),
            None => Known {
                heard: self.start,
                failed: false,
                opening: None,
            },
        }
    }

    /// What deadlines of the account whose row stands at this place go by.
    pub fn known_at(&self, place: usize) -> Known
        requires { place < length self.now.rows }
        ensures { (account : List ℕ) → StandsAt account place self.now.rows → Tells (row_in self.now account) result }
    {
        let Some((_, row)) = self.by_account.get_index(place) else {
            unreachable!()
        };
        row.known()
    }

    /// The moment of the newest of the last 32 messages of the account that makes the message, at this moment, a repeat.
    pub fn repeat(&self, message: &Message, at: u64) -> Option<u64>
        ensures { result ≡ option_map (λ p. p.at) (find (repeats message.now at) (take 32 (row_in self.now message.now.account).messages)) }
    {
        self.repeat_at(self.row_of(&message.account), message, at)
    }

    /// The same of a message whose account's row was looked up already.
    pub fn repeat_at(&self, row: Option<usize>, message: &Message, at: u64) -> Option<u64>
        requires { IsRowOf message.now.account row self.now.rows }
        ensures { result ≡ option_map (λ p. p.at) (find (repeats message.now at) (take 32 (row_in self.now message.now.account).messages)) }
    {
        match row {
            Some(place) => {
                let Some((_, row)) = self.by_account.get_index(place) else {
                    unreachable!()
                };
                row.window.holds(message, at)
            }
            None => None,
        }
    }
}

// Makes windows until there are so many.
fn fill(alloc: Global, windows: &mut Vec<Window>, wanted: usize) -> Result<(), Memory>
    requires { All (λ w. w ≡ []) windows.old.items }
    ensures empty { All (λ w. w ≡ []) windows.new.items }
    ensures more { length windows.old.items ≤ length windows.new.items }
    ensures bound { length windows.new.items ≤ max (length windows.old.items) wanted }
    ensures enough { OnOk result (wanted ≤ length windows.new.items) }
{
    for _ in windows.len()..wanted {
        let window = Window::new(alloc)?;
        let Ok(()) = windows.push(window) else {
            return Err(Memory);
        };
    }
    Ok(())
}

// Each account with a row was heard.
fn hear_all(rows: &mut IndexMap<Txt, Row>, at: u64)
    ensures rows { map row_at rows.new.entries ≡ map (now_heard at) (map row_at rows.old.entries) }
    ensures spare { spare_of rows.new ≡ spare_of rows.old }
{
    for place in 0..rows.len() {
        let row = &mut rows[place];
        row.hear(at);
    }
}

// Makes the row of an account that has none: the account has been heard at the last Start, and nothing more is known.
fn make_row(
    rows: &mut IndexMap<Txt, Row>,
    windows: &mut Vec<Window>,
    start: Option<u64>,
    account: &Txt,
)
    requires none { is_some (get bytes_eq rows.old account.now) ≡ false }
    requires some { 0 < length windows.old.items }
    requires spare { length windows.old.items ≤ spare_of rows.old }
    requires empty { All (λ w. w ≡ []) windows.old.items }
    ensures entries { rows.new.entries ≡ rows.old.entries ++ (account.now, blank start) ∷ [] }
    ensures room { length windows.old.items ≡ length windows.new.items + 1 }
    ensures spare { length windows.new.items ≤ spare_of rows.new }
    ensures empty { All (λ w. w ≡ []) windows.new.items }
{
    let Some(window) = windows.pop() else {
        unreachable!()
    };
    let row = Row {
        heard: start,
        failed: false,
        opening: None,
        window,
    };
    let Ok(_) = rows.insert(*account, row) else {
        unreachable!()
    };
}
