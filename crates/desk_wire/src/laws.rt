// What holds of every command.
ghost use Rattle.desk_wire.specs.Laws.{ReadIsSpelled, SpelledIsRead};

/// A line that is read as a command is the spelling of that command, and its parts are in their ranges.
pub fn law_read_is_spelled()
    ensures { ReadIsSpelled }
{}

/// The spelling of a command whose parts are in their ranges is read as that command.
pub fn law_spelled_is_read()
    ensures { SpelledIsRead }
{}
