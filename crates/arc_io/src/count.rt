// A number for proofs.
ghost use Rattle.std.specs.Prelude.{◌≡◌, ℕ, ◌+◌};
ghost use Rattle.std.specs.Borrow.{ftrue};

use std::marker::Model;

/// A number that only proofs read, as `number`. It takes no memory, and its methods do nothing at run time. A form in memory
/// tells a list that grows with each call, and no number of the machine counts them all.
#[derive(Drop)]
pub struct Count {
    pub ghost number: { ℕ },
}

impl Model for Count {
    ghost also_owns = { λ _. ftrue };
}

// It owns nothing.
unsafe impl Send for Count {}

impl Count {
    /// Zero.
    pub fn new() -> Count
        ensures { result.number ≡ 0 }
    {
        Count {}
    }

    /// One more.
    pub fn and_one(&self) -> Count
        ensures { result.number ≡ self.now.number + 1 }
    {
        Count {}
    }
}
