// The words of a plan.
ghost use Rattle.std.specs.Prelude.{◌≡◌};
ghost use Rattle.arc_data.specs.Words.{word_place};

/// A word of a plan line: what is to be done for the incidents of a class.
#[derive(Clone, Copy, Debug)]
pub enum PlanWord {
    Premises,
    /// Call each keyholder of the account, in their order.
    Holders,
    Police,
    Fire,
    Ambulance,
    Guard,
    Note,
}

impl PartialEq for PlanWord {
    ghost use Rattle.arc_data.specs.Words.{same_word, same_word_equiv};
    ghost use Rattle.std.specs.Cmp.{partial_equiv_from_equiv};

    ghost eq = { same_word };

    ghost laws = { partial_equiv_from_equiv same_word_equiv };

    fn eq(&self, other: &PlanWord) -> bool {
        self.place() == other.place()
    }
}

impl Eq for PlanWord {
    ghost use Rattle.arc_data.specs.Words.{same_word_equiv};

    ghost laws = { same_word_equiv };
}

impl PlanWord {
    // Its place in the list above.
    fn place(self) -> u8
        ensures { result ≡ word_place self }
    {
        self as u8
    }
}

/// A word of a plan, with or without its mark `@closed`, by which it counts only outside open hours.
#[derive(Clone, Copy, Debug, PartialEq, Eq)]
pub struct Planned {
    pub word: PlanWord,
    pub closed: bool,
}
