// What holds of all SIA data.
ghost use Rattle.alarm_rules.specs.SiaGrammar.{ReadIsSpelled, SpelledIsRead};

/// Data that is read as some items is `N` or `O` and these items, spelled by the rules of the grammar.
pub fn law_read_is_spelled()
    ensures { ReadIsSpelled }
{}

/// Data that is spelled by the rules of the grammar is read as its items. So no other items spell it.
pub fn law_spelled_is_read()
    ensures { SpelledIsRead }
{}
