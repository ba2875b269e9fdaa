// Decimal texts.
ghost use Rattle.std.specs.Prelude.{◌≡◌, ◌<◌, ◌^◌, ℕ, decimal, IfSome, IfNone};
ghost use Rattle.arc_text.specs.Words.{has_needless_front};

use std::str;

/// The number that a decimal text spells: digits alone, with no sign, no leading zero and no space. None where the bytes
/// are no such text of a number below 2^64.
pub fn dec(bytes: &[u8]) -> Option<u64>
    ensures some { IfSome result (λ n. bytes.now ≡ decimal n) }
    ensures none { IfNone result ((n : ℕ) → n < 2 ^ 64 → bytes.now ≡ decimal n → ⊥) }
{
    if has_needless_front(bytes) {
        return None;
    }
    let Ok(text) = str::from_utf8(bytes) else {
        return None;
    };
    text.parse().ok()
}

// A plus stands first, or a zero before another byte. The standard parser takes both.
fn has_needless_front(bytes: &[u8]) -> bool
    ensures { result ≡ has_needless_front bytes.now }
{
    matches!(bytes, [b'+', ..] | [b'0', _, ..])
}
