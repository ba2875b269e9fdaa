// Which number the open incident of an account and a class has.
ghost use Rattle.std.specs.Prelude.{◌≡◌, ◌≤◌, ◌<◌, ◌+◌, [], Some, None, OnOk};
ghost use Rattle.incidents.specs.Index.{key_of, number_in, Tells, TellsAlike};

use arc_data::{Class, Memory, Txt};
use indexmap::IndexMap;
use std::alloc::Global;
use std::marker::Model;

/// An account and the place of a class among the classes.
#[derive(Clone, Copy, PartialEq, Eq, Hash)]
pub struct Key {
    account: Txt,
    class: u8,
}

/// The number of the open incident of each account and class that has one. Contracts see its
/// entries, in no order that matters, and for how many more there is memory.
#[derive(Drop)]
pub struct Index {
    by_key: IndexMap<Key, u64>,
}

impl Model for Index {
    ghost use Rattle.incidents.specs.Index.{IndexValue};
    ghost use Rattle.indexmap.specs.IndexMap.{spare};

    ghost Value = { IndexValue };

    ghost view = { λ n. record { entries = n.by_key.entries; spare = spare n.by_key } };
}

fn key_for(account: &Txt, class: Class) -> Key
    ensures { result ≡ key_of account.now class }
{
    Key {
        account: *account,
        class: class as u8,
    }
}

impl Index {
    /// Tells no number. Takes no memory.
    pub fn new(alloc: Global) -> Index
        ensures { result.entries ≡ [] }
    {
        Index {
            by_key: IndexMap::new(alloc),
        }
    }

    /// Takes memory for so many numbers more. The error is want of memory.
    pub fn reserve(&mut self, more: usize) -> Result<(), Memory>
        ensures alike { TellsAlike self.old self.new }
        ensures room { OnOk result (more ≤ self.new.spare) }
        ensures kept { self.old.spare ≤ self.new.spare }
    {
        match self.by_key.reserve(more) {
            Ok(()) => Ok(()),
            Err(_) => Err(Memory),
        }
    }

    /// The number of an account and a class.
    pub fn find(&self, account: &Txt, class: Class) -> Option<u64>
        ensures { result ≡ number_in self.now account.now class }
    {
        self.by_key.get(&key_for(account, class)).copied()
    }

    /// Gives an account and a class a number. Takes no memory.
    pub fn put(&mut self, account: &Txt, class: Class, number: u64)
        requires { 0 < self.old.spare }
        ensures tells { Tells account.now class (Some number) self.old self.new }
        ensures spare { self.old.spare ≤ self.new.spare + 1 }
    {
        let _ = self.by_key.insert(key_for(account, class), number);
    }

    /// Takes the number of an account and a class away.
    pub fn remove(&mut self, account: &Txt, class: Class)
        ensures tells { Tells account.now class None self.old self.new }
        ensures spare { self.old.spare ≤ self.new.spare }
    {
        let _ = self.by_key.swap_remove(&key_for(account, class));
    }
}
