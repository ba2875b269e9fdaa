// Calls of a watch whose comparisons nobody counts: they go into a ledger that is made for the call, takes no bytes, and is dropped
// unread.
ghost use Rattle.std.specs.Prelude.{◌≡◌, ◌<◌, length, slice_set, OnOk};
ghost use Rattle.supervision.specs.Deadlines.{due_at};

use arc_data::Memory;
use arc_text::Steps;
use std::marker::Brand;
use std::sync::ledger::{Blank, Ledger};
use supervision::{Places, Watch};

/// Gives a place that has room this deadline, or none. Takes no memory.
pub(crate) fn set(watch: &mut Watch, place: usize, deadline: Option<u64>)
    requires { place < length watch.old }
    ensures { watch.new ≡ slice_set watch.old place deadline }
{
    set_in::<Brand>(watch, place, deadline, Blank::new(1));
}

/// Makes the list that of the places whose deadline is passed. The error is want of memory.
pub(crate) fn due(watch: &Watch, at: u64, out: &mut Places) -> Result<(), Memory>
    ensures { OnOk result (out.new ≡ due_at at watch.now) }
{
    due_in::<Brand>(watch, at, out, Blank::new(1))
}

fn set_in<L: Ledger>(watch: &mut Watch, place: usize, deadline: Option<u64>, blank: Blank)
    requires name { blank.name ≡ L.name }
    requires parts { blank.parts ≡ L.parts }
    requires some { 0 < blank.parts }
    requires room { place < length watch.old }
    ensures { watch.new ≡ slice_set watch.old place deadline }
{
    let mut steps = Steps::<L>::new(blank);
    watch.set(place, deadline, &mut steps);
}

fn due_in<L: Ledger>(watch: &Watch, at: u64, out: &mut Places, blank: Blank) -> Result<(), Memory>
    requires name { blank.name ≡ L.name }
    requires parts { blank.parts ≡ L.parts }
    requires some { 0 < blank.parts }
    ensures { OnOk result (out.new ≡ due_at at watch.now) }
{
    let mut steps = Steps::<L>::new(blank);
    watch.due(at, out, &mut steps)
}
