// One line of a script that asks for something.
ghost use Rattle.std.specs.Prelude.{◌≡◌, ◌≢◌, ◌≤◌, Ok, Some, IfErr, IfOk, OnErr, OnOk, length};
ghost use Rattle.arc_data.specs.Moments.{IsMoment};
ghost use Rattle.script_lines.specs.Lines.{IsAsked, Reopen, spelling};
ghost use Rattle.script_lines.specs.Reading.{asked};
ghost use Rattle.arc_script.specs.Between.{Carries, IsReady, Shuts, Stops};
ghost use Rattle.arc_script.specs.Halting.{closing};
ghost use Rattle.arc_script.specs.PageWords.{page_seen};
ghost use Rattle.arc_script.specs.Pages.{blank};
ghost use Rattle.arc_script.specs.Playing.{moment_at};
ghost use Rattle.arc_script.specs.Texts.{line_limit};

use crate::command::command;
use crate::feed::{feed, message};
use crate::page::Page;
use crate::reopen::reopen;
use crate::room::Room;
use crate::script::Script;
use crate::tick::tick;
use arc_io::Disk;
use centre_core::Stop;
use centre_store::Store;
use disk_journal::OpenRefused;
use script_lines::ScriptLine;
use std::alloc::Global;

/// Carries out what a line other than `X` asks for at a moment, the one that the line itself sets or that was set last.
pub(crate) fn carry_out<D: Disk>(
    alloc: Global,
    store: &mut Store<D>,
    script: &mut Script,
    moment: u64,
    wanted: ScriptLine,
    room: &mut Room,
    page: &mut Page,
) -> Result<(), Stop>
    requires moment { IsMoment moment }
    requires ready { IsReady script.old.clock script.old.setup store.old.state.sum.text }
    requires ranges { IsAsked (asked wanted) }
    requires short { length (spelling (asked wanted)) ≤ line_limit }
    requires at { moment_at script.old.clock (asked wanted) ≡ Some moment }
    requires blank { page_seen page.old ≡ blank moment }
    requires other { asked wanted ≢ Reopen }
    ensures carried { OnOk result (Carries D.seen moment (asked wanted.entry)
        script.old script.new store.old store.new (page_seen page.old) (page_seen page.new)) }
    ensures stop { IfErr result (λ stop. Stops D.seen moment (asked wanted.entry)
        script.old script.new store.old store.new stop) }
    ensures ready { OnOk result (IsReady script.new.clock script.new.setup store.new.state.sum.text) }
    ensures rest { (script.new.setup ≡ script.old.setup) × (script.new.number ≡ script.old.number)
        × (script.new.opened_before ≡ script.old.opened_before) }
{
    match wanted {
        ScriptLine::Time { moment } => tick(alloc, store, script, moment, &mut room.line, page),
        ScriptLine::Feed { line, digits } => feed(alloc, store, script, moment, line, digits, page),
        ScriptLine::Message { line, body } => message(
            alloc,
            store,
            script,
            moment,
            line,
            body,
            &mut room.frame,
            page,
        ),
        ScriptLine::Command { desk, text } => command(alloc, store, script, desk, text, page),
        ScriptLine::Reopen => Ok(()),
    }
}

/// Carries out an `X` at the moment that was set last.
pub(crate) fn carry_out_reopen<D: Disk>(
    alloc: Global,
    store: Store<D>,
    script: &mut Script,
    moment: u64,
    page: &mut Page,
) -> Result<(Store<D>, Result<(), Stop>), OpenRefused<D>>
    requires moment { IsMoment moment }
    requires ready { IsReady script.old.clock script.old.setup store.state.sum.text }
    ensures carried { IfOk result (λ r. OnOk r.1 (Carries D.seen moment Reopen
        script.old script.new store r.0 (page_seen page.old) (page_seen page.new))) }
    ensures stop { IfOk result (λ r. IfErr r.1 (λ stop. Stops D.seen moment Reopen
        script.old script.new store r.0 stop)) }
    ensures shut { IfErr result (λ r. Shuts D.seen moment Reopen script.old store r.fault r.disk) }
    ensures closed { OnErr result (script.new.tally ≡ closing script.old.tally script.old.opened_before store.state.sum) }
    ensures ready { IfOk result (λ r. OnOk r.1 (IsReady script.new.clock script.new.setup r.0.state.sum.text)) }
    ensures rest { (script.new.setup ≡ script.old.setup) × (script.new.number ≡ script.old.number)
        × (script.new.opened_before ≡ script.old.opened_before) }
{
    reopen(alloc, store, script, moment, page)
}
