// What holds of every count of steps.
ghost use Rattle.supervision.specs.Deadlines.{StepsAreTwiceDigits};

use arc_text::law_steps_are_digits;

/// Among fewer deadlines than 2 to the number of digits a call of `set` takes at most twice as many comparisons as there are
/// digits.
pub fn law_steps_are_twice_digits()
    ensures { StepsAreTwiceDigits }
{
    law_steps_are_digits();
}
