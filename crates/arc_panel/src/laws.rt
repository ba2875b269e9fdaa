// Laws of a panel's lines.
ghost use Rattle.arc_panel.specs.Lines.{HasOneMeaning};

/// A line says one thing at most.
pub fn law_one_meaning()
    ensures { HasOneMeaning }
{}
