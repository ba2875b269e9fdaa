// Counts and classes as a desk writes them.
ghost use Rattle.std.specs.Prelude.{◌≡◌};
ghost use Rattle.std.specs.List.{find};
ghost use Rattle.std.specs.Str.{bytes_eq};
ghost use Rattle.arc_data.specs.Classes.{name_of};
ghost use Rattle.alarm_rules.specs.SetupWords.{class_named};
ghost use Rattle.desk_said.specs.Words.{count_spelled};

use arc_data::Class;
use arc_text::dec;

const CLASSES: [Class; 12] = [
    Class::Fire,
    Class::Medical,
    Class::Panic,
    Class::Gas,
    Class::Burglary,
    Class::Tamper,
    Class::Environment,
    Class::CommFail,
    Class::Trouble,
    Class::Irregular,
    Class::LateClose,
    Class::Unlisted,
];

/// A count or a moment, in decimal, from 0 on. None where the word is no such number.
pub fn count(word: &[u8]) -> Option<u64>
    ensures { result ≡ count_spelled word.now }
{
    let count = dec(word)?;
    Some(count)
}

/// The class of this name that an incident may have. None where none has it.
pub fn class(word: &[u8]) -> Option<Class>
    ensures { result ≡ class_named word.now }
{
    class_among(word, &CLASSES)
}

fn class_among(word: &[u8], classes: &[Class]) -> Option<Class>
    ensures { result ≡ find (λ class. bytes_eq word.now (name_of class)) classes.now }
{
    classes
        .iter()
        .copied()
        .find(|class| word == class.name().as_bytes())
}
