// The keyholders of an account.
ghost use Rattle.std.specs.Prelude.{◌≡◌, ◌<◌, ◌≤◌, ◌↔◌, [], ◌∷◌, ◌++◌, length, IsTrue, if◌then◌else◌, ⊤};
ghost use Rattle.std.specs.List.{find};
ghost use Rattle.std.specs.Option.{option_map};
ghost use Rattle.std.specs.Str.{bytes_eq};

use arc_data::Txt;
use std::alloc::AllocError;
use std::marker::Model;

/// A keyholder, and the number of the line that declares it.
#[derive(Clone, Copy)]
pub(crate) struct Keyholder {
    pub name: Txt,
    pub line: u64,
}

/// At most four keyholders, in the order of their lines. Contracts see them as a list.
#[derive(Drop)]
pub(crate) struct Keyholders {
    items: [Keyholder; 4],
    len: usize,
}

impl Model for Keyholders {
    ghost use Rattle.std.specs.Prelude.{◌≡◌, ◌≤◌, List, length, take};
    ghost use Rattle.accounts.specs.declared.keyholders.Keyholder.{Keyholder};

    ghost Value = { List Keyholder };

    ghost view = { λ k. take k.len k.items };

    ghost invariant = { λ k. (k.len ≤ 4) × (length k.items ≡ 4) };
}

impl Clone for Keyholders {
    ghost is_clone = { λ keyholders copy. copy ≡ keyholders };

    ghost is_infallible = { λ keyholders. ⊤ };

    fn clone(&self) -> Result<Keyholders, AllocError> {
        let mut copy = Keyholders::new();
        for keyholder in &self.items[..self.len] {
            let _ = copy.push(keyholder.name, keyholder.line);
        }
        Ok(copy)
    }
}

impl Keyholders {
    /// No keyholders.
    pub(crate) fn new() -> Keyholders
        ensures { result ≡ [] }
    {
        let unused = Keyholder {
            name: Txt::empty(),
            line: 0,
        };
        Keyholders {
            items: [unused; 4],
            len: 0,
        }
    }

    /// How many there are.
    pub(crate) fn count(&self) -> u8
        ensures { result ≡ length self.now }
    {
        self.len as u8
    }

    /// The line that declares the keyholder of this name.
    pub(crate) fn line_of(&self, name: &Txt) -> Option<u64>
        ensures { result ≡ option_map (λ k. k.line) (find (λ k. bytes_eq name.now k.name) self.now) }
    {
        line_among(&self.items[..self.len], name)
    }

    /// Puts a keyholder last. False exactly where four are there, and then nothing changes.
    pub(crate) fn push(&mut self, name: Txt, line: u64) -> bool
        ensures room { IsTrue result ↔ (length self.old < 4) }
        ensures pushed { self.new ≡ (if result then self.old ++ record { name = name; line = line } ∷ [] else self.old) }
    {
        if self.len == 4 {
            return false;
        }
        self.items[self.len] = Keyholder { name, line };
        self.len += 1;
        true
    }
}

/// The line that declares the one of these keyholders that has this name.
fn line_among(keyholders: &[Keyholder], name: &Txt) -> Option<u64>
    ensures { result ≡ option_map (λ k. k.line) (find (λ k. bytes_eq name.now k.name) keyholders.now) }
{
    let found = keyholders.iter().find(|keyholder| *name == keyholder.name)?;
    Some(found.line)
}
