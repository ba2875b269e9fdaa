// What was done in this sitting.
ghost use Rattle.std.specs.Prelude.{◌≡◌, [], Some, None};
ghost use Rattle.screen_page.specs.Pasts.{HasAdded, MayAdd, recorded_by, recorded_in};
ghost use Rattle.screen_page.specs.Texts.{answered_row};

use crate::rows::answered_row;
use crate::strip::Strip;
use arc_data::{Outcome, Step};
use desk_said::{Said, read};
use desk_screen::{Command, Deed};
use std::alloc::Global;

/// The answered commands of a sitting, the newest 200, and which steps of which incident were recorded.
pub struct Past {
    rows: Vec<Strip>,
    acts: Vec<(u64, Step, Outcome)>,
}

impl Drop for Past {
    fn drop(self) {
        let Past { rows, acts } = self;
        drop(rows);
        drop(acts);
    }
}

const MOST: usize = 200;

fn add_row(rows: &mut Vec<Strip>, row: Strip)
    ensures { HasAdded rows.old.items row rows.new.items }
{
    if rows.len() >= MOST {
        let _ = rows.remove(0);
    }
    let _ = rows.push(row);
}

fn add_act(acts: &mut Vec<(u64, Step, Outcome)>, act: (u64, Step, Outcome))
    ensures { HasAdded acts.old.items act acts.new.items }
{
    if acts.len() >= MOST {
        let _ = acts.remove(0);
    }
    let _ = acts.push(act);
}

fn recorded_by(command: &Command, said: &Said) -> Option<(u64, Step, Outcome)>
    ensures { result ≡ recorded_by command.now said.now }
{
    match (command, said) {
        (
            Command::Act {
                number,
                step,
                outcome,
            },
            Said::Recorded { .. },
        ) => Some((*number, *step, *outcome)),
        _ => None,
    }
}

// The step that an answered command recorded.
fn recorded_in(deed: &Deed) -> Option<(u64, Step, Outcome)>
    ensures { result ≡ recorded_in deed.now }
{
    recorded_by(&deed.command, &read(deed.answer.bytes()))
}

impl Past {
    /// Nothing done. Takes no memory.
    pub fn new(alloc: Global) -> Past
        ensures rows { result.rows.items ≡ [] }
        ensures acts { result.acts.items ≡ [] }
    {
        Past {
            rows: Vec::new(alloc),
            acts: Vec::new(alloc),
        }
    }

    /// Takes up an answered command. Where memory is short it is left out.
    pub fn note(&mut self, deed: &Deed)
        ensures rows { HasAdded self.old.rows.items (answered_row deed.now) self.new.rows.items }
        ensures acts { MayAdd self.old.acts.items (recorded_in deed.now) self.new.acts.items }
    {
        add_row(&mut self.rows, answered_row(deed));
        if let Some(act) = recorded_in(deed) {
            add_act(&mut self.acts, act);
        }
    }

    /// The answered commands, the oldest first.
    pub fn rows(&self) -> &[Strip]
        ensures { result.now ≡ self.now.rows.items }
    {
        &self.rows
    }

    /// The recorded steps, the oldest first.
    pub fn acts(&self) -> &[(u64, Step, Outcome)]
        ensures { result.now ≡ self.now.acts.items }
    {
        &self.acts
    }
}
