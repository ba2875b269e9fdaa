// A short text in a fixed field.
ghost use Rattle.std.specs.Prelude.{◌≡◌, ◌≤◌, ◌↔◌, [], length, IfSome, IsSome, codes};
ghost use Rattle.std.specs.Str.{bytes_eq};
ghost use Rattle.arc_data.specs.Digits.{capitals};

use std::hash::{Hash, Hasher};
use std::marker::Model;
use std::simd::prelude::*;

/// A text of at most 32 bytes in a field of its own, which takes no memory. Contracts see it as the list of its bytes.
#[derive(Clone, Copy, Debug)]
pub struct Txt {
    bytes: [u8; 32],
    len: usize,
}

impl Model for Txt {
    ghost use Rattle.std.specs.Prelude.{ℕ, List, length, take};
    ghost use Rattle.arc_data.specs.Field.{IsPadded, field_of, field_again, len_again};

    ghost Value = { List ℕ };

    ghost view = { λ t. take t.len t.bytes };

    ghost invariant = { λ t. IsPadded t.len t.bytes };

    ghost inverse = { λ text. record { bytes = field_of text; len = length text } };

    ghost inverse_ok = { λ t h i. record { bytes = field_again t.len t.bytes h i; len = len_again t.len t.bytes h i } };
}

impl PartialEq for Txt {
    ghost use Rattle.std.specs.Str.{bytes_eq};
    ghost use Rattle.std.proofs.lemmas.Cmp.{nat_list_eq_equiv};
    ghost use Rattle.std.specs.Cmp.{partial_equiv_from_equiv};

    ghost eq = { bytes_eq };

    ghost laws = { partial_equiv_from_equiv nat_list_eq_equiv };

    fn eq(&self, other: &Txt) -> bool {
        self.len == other.len && are_same(self.bytes, other.bytes)
    }
}

impl Eq for Txt {
    ghost use Rattle.std.proofs.lemmas.Cmp.{nat_list_eq_equiv};

    ghost laws = { nat_list_eq_equiv };
}

impl Hash for Txt {
    ghost use Rattle.std.proofs.Common.{rules};
    ghost use Rattle.std.specs.Cmp.Rules.{hashing};
    ghost use Rattle.std.specs.Hash as fed;

    ghost hash_input = { fed.slice fed.u8 };

    ghost respects_eq = { Prim.search (hashing, rules) };

    fn hash<H: Hasher>(&self, state: &mut H) {
        self.bytes().hash(state);
    }
}

impl Txt {
    /// The text of no bytes.
    pub fn empty() -> Txt
        ensures { result ≡ [] }
    {
        Txt {
            bytes: [0; 32],
            len: 0,
        }
    }

    /// The text `?`, which stands for an argument that is too long for a text.
    pub fn question() -> Txt
        ensures { result ≡ codes "?" }
    {
        let mut bytes = [0; 32];
        bytes[0] = b'?';
        Txt { bytes, len: 1 }
    }

    /// The text of these bytes. None exactly where there are more than 32.
    pub fn of(bytes: &[u8]) -> Option<Txt>
        ensures fits { IsSome result ↔ (length bytes.now ≤ 32) }
        ensures value { IfSome result (λ text. text ≡ bytes.now) }
    {
        if bytes.len() > 32 {
            return None;
        }
        let mut field = [0; 32];
        field[..bytes.len()].copy_from_slice(bytes);
        Some(Txt {
            bytes: field,
            len: bytes.len(),
        })
    }

    /// Its bytes.
    pub fn bytes(&self) -> &[u8]
        ensures value { result.now ≡ self.now }
        ensures short { length result.now ≤ 32 }
    {
        &self.bytes[..self.len]
    }

    /// The text with each letter from `a` to `z` as a capital. Accounts are compared so.
    pub fn capitals(&self) -> Txt
        ensures { result ≡ capitals self.now }
    {
        let mut bytes = self.bytes;
        bytes[..self.len].make_ascii_uppercase();
        Txt {
            bytes,
            len: self.len,
        }
    }
}

// Whether two fields have the same bytes, all of which are compared at once.
fn are_same(a: [u8; 32], b: [u8; 32]) -> bool
    ensures { result ≡ bytes_eq a b }
{
    let differ = u8x32::from_array(a).simd_ne(u8x32::from_array(b));
    differ.to_bitmask() == 0
}
