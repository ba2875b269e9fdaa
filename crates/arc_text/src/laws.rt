// What holds of every count of steps.
ghost use Rattle.arc_text.specs.Comparisons.{StepsAreDigits};

/// Among fewer pairs than 2 to the number of digits a call takes at most as many comparisons as there are digits.
pub fn law_steps_are_digits()
    ensures { StepsAreDigits }
{}
