// Laws of a script's lines.
ghost use Rattle.script_lines.specs.Lines.{HasOneMeaning};

/// A line asks for one thing at most.
pub fn law_one_meaning()
    ensures { HasOneMeaning }
{}
