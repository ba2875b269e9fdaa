// The most urgent of the incidents whose holds have lapsed. They are claimed, so none of them stands in the queue.
ghost use Rattle.std.specs.Prelude.{◌≡◌};
ghost use Rattle.std.specs.Option.{option_map};
ghost use Rattle.centre_rules.specs.Desks.{is_before as comes_before, least};
ghost use Rattle.open_incidents.specs.Holding.{held_numbers};
ghost use Rattle.open_incidents.specs.Lapses.{earlier as earlier_of, lapsed};

use crate::standing::has_lapsed;
use arc_data::Incident;
use incidents::Table;

/// The most urgent of the incidents whose holds have lapsed at a moment. It is found by one walk over the claimed ones: these are
/// their numbers.
pub(crate) fn first_lapsed<'a>(
    table: &'a Table,
    numbers: &[u64],
    at: u64,
    lapse: Option<u64>,
) -> Option<&'a Incident>
    requires { numbers.now ≡ held_numbers table.now.incidents }
    ensures { option_map (λ i. i.now) result ≡ least (lapsed lapse at table.now.incidents) }
{
    let _slots = table.slots();
    let mut first = None;
    for number in numbers {
        if let Some(i) = table.get(*number) {
            if has_lapsed(i.touched, at, lapse) {
                first = earlier(first, Some(i));
            }
        }
    }
    first
}

/// The more urgent of two incidents, either of which may lack.
pub(crate) fn earlier<'a>(
    one: Option<&'a Incident>,
    other: Option<&'a Incident>,
) -> Option<&'a Incident>
    ensures { option_map (λ i. i.now) result ≡ earlier_of (option_map (λ i. i.now) one.entry) (option_map (λ i. i.now) other.entry) }
{
    let Some(i) = one else {
        return other;
    };
    let Some(j) = other else {
        return one;
    };
    if is_before(j, i) { other } else { one }
}

// By priority, and of one priority by number.
fn is_before(i: &Incident, j: &Incident) -> bool
    ensures { result ≡ comes_before i.now j.now }
{
    let first = i.class.priority();
    let second = j.class.priority();
    first < second || first == second && i.number < j.number
}
