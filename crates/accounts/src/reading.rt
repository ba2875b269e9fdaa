// Reading the lines of a setup text.
ghost use Rattle.std.specs.Prelude.{◌≡◌, ◌≤◌, ◌⊎◌, [], length, None, Some, IfOk, IfErr, OnOk};
ghost use Rattle.alarm_rules.specs.SetupLines.{says};
ghost use Rattle.alarm_rules.specs.Setups.{said_lines, first_fault};
ghost use Rattle.accounts.specs.Standing.{IsTaken, Stands};

use crate::line::Line;
use crate::lines::first_line;
use crate::table::Table;
use arc_data::{LineKind, SetupFault};
use std::alloc::Global;

/// What the lines of a text declare, or the fault of the first line that has one.
pub(crate) fn read_table(alloc: Global, text: &[u8]) -> Result<Table, SetupFault>
    requires { length text.now ≤ 4194304 }
    ensures faultless { OnOk result (first_fault [] (said_lines text.now) ≡ None) }
    ensures table { IfOk result (Stands (said_lines text.now)) }
    ensures fault { IfErr result (λ fault. (fault ≡ SetupFault.Memory) ⊎ (first_fault [] (said_lines text.now) ≡ Some fault)) }
{
    let mut table = Table::new(alloc);
    let mut rest = text;
    let mut number: u64 = 0;
    while let Some((line, after)) = first_line(rest) {
        number += 1;
        take_line(alloc, &mut table, number, line)?;
        rest = after;
    }
    Ok(table)
}

/// Takes up a line, or says what is wrong with it. The table has what the lines before it declare.
fn take_line(alloc: Global, table: &mut Table, number: u64, line: &[u8]) -> Result<(), SetupFault>
    ensures { IsTaken table.old number (says line.now) result table.new }
{
    match Line::read(line) {
        Some(line) => table.take(alloc, number, line),
        None => Err(SetupFault::BadLine {
            line: number,
            kind: LineKind::Form,
        }),
    }
}
