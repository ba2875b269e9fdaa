// Running a script.
ghost use Rattle.std.specs.Prelude.{◌≡◌, ◌<◌, ◌≤◌, ◌^◌, ◌⊎◌, [], ℕ, List, false, length};
ghost use Rattle.std.specs.Str.Lines.{lines};
ghost use Rattle.arc_io.specs.Told.{OnlyWrites};
ghost use Rattle.arc_text.specs.LineCutting.{WasFed};
ghost use Rattle.arc_text.specs.Lines.{ended_lines};
ghost use Rattle.centre_store.specs.Given.{HoldsRecorded};
ghost use Rattle.session_rules.specs.Inputs.{input_limit};
ghost use Rattle.arc_script.specs.Begun.{Begun};
ghost use Rattle.arc_script.specs.Between.{IsReady, IsStoreSoFar, SoFar};
ghost use Rattle.arc_script.specs.Ends.{IsScript, IsTranscript, IsUnread};
ghost use Rattle.arc_script.specs.Halting.{Finishes};
ghost use Rattle.arc_script.specs.Texts.{line_limit};

use crate::play::{Halted, play_ended, play_last};
use crate::room::Room;
use crate::script::{Script, tally_of};
use crate::script_end::{ScriptEnd, ScriptEnded, Tally};
use accounts::Setup;
use arc_data::Memory;
use arc_io::{Disk, Failed, Port};
use arc_text::LineCutter;
use centre_core::Stop;
use centre_store::Store;
use disk_journal::{Limits, OpenRefused};
use session_rules::{PIECE, read_piece, room_behind};
use std::alloc::Global;

// How many bytes a line of a script has at most.
const LINE_LIMIT: usize = 16_384;

/// Runs the script on the port's source over the disk, and writes its output to the port's sink. The store is opened before the script is
/// read, with these limits. The port's clock and noise are not asked: the clock is what the script sets, and the noise is zero. The
/// script is read piece by piece, and is not kept. Of a journal that was not opened nothing is counted.
pub fn run_script<D: Disk, P: Port>(
    alloc: Global,
    disk: D,
    setup: Setup,
    port: &mut P,
    limits: Limits,
) -> ScriptEnded<D>
    requires few { limits.bytes < 2 ^ 32 }
    requires not_ended { (P.seen port.old).ended ≡ false }
    ensures script { IsScript D.seen setup limits (P.seen port.old) (P.seen port.new) disk result }
{
    match Store::open(alloc, disk, limits) {
        Ok(store) => run_over(alloc, store, setup, port, limits),
        Err(OpenRefused { fault, disk }) => ScriptEnded {
            end: ScriptEnd::Refused(fault),
            disk,
            tally: Tally {
                sent: 0,
                repeats: 0,
                recorded: 0,
                opened: 0,
                closed: 0,
                total: 0,
            },
        },
    }
}

// Runs the script over a store.
fn run_over<D: Disk, P: Port>(
    alloc: Global,
    store: Store<D>,
    setup: Setup,
    port: &mut P,
    limits: Limits,
) -> ScriptEnded<D>
    requires few { limits.bytes < 2 ^ 32 }
    requires not_ended { (P.seen port.old).ended ≡ false }
    ensures ran { (b : Begun D) → b.setup ≡ setup → b.limits ≡ limits → b.port ≡ P.seen port.old
        → IsStoreSoFar D.seen b b.base b.past store → HoldsRecorded D.seen store.journal b.base b.past
        → IsTranscript D.seen b result.end (P.seen port.new) result.disk result.tally
        ⊎ ((result.end ≡ ScriptEnd.Stopped Stop.Memory) × IsUnread D.seen b (P.seen port.new) result.disk result.tally) }
{
    match Script::new(alloc, setup, limits, store.centre()) {
        Ok(mut script) => {
            let (end, disk) = read_script(alloc, store, &mut script, port);
            ScriptEnded {
                end,
                disk,
                tally: script.tally,
            }
        }
        Err(Memory) => ScriptEnded {
            end: ScriptEnd::Stopped(Stop::Memory),
            tally: tally_of(store.centre()),
            disk: store.close(),
        },
    }
}

// Reads the script, and plays its lines.
fn read_script<D: Disk, P: Port>(
    alloc: Global,
    store: Store<D>,
    script: &mut Script,
    port: &mut P,
) -> (ScriptEnd, D)
    requires not_ended { (P.seen port.old).ended ≡ false }
    requires ready { IsReady script.old.clock script.old.setup store.state.sum.text }
    ensures ran { (b : Begun D) → b.port ≡ P.seen port.old → script.old.number ≡ 0
        → SoFar D.seen b [] script.old store (P.seen port.old)
        → IsTranscript D.seen b result.0 (P.seen port.new) result.1 script.new.tally }
{
    let mut store = store;
    let mut cutter = LineCutter::new(LINE_LIMIT);
    let mut buffer = [0; PIECE];
    let mut room = Room::new();
    let mut count = 0;
    'pieces: loop {
        let most = (PIECE as u64).min(room_behind(count)) as usize;
        if most == 0 {
            return (ScriptEnd::Spent, script.close(store));
        }
        match read_piece(port, &mut buffer, most) {
            Err(Failed) => return (ScriptEnd::ReadFault, script.close(store)),
            Ok(0) => return finish(alloc, store, script, &mut cutter, &mut room, port),
            Ok(more) => {
                count += more as u64;
                match play_ended(
                    alloc,
                    store,
                    script,
                    &mut cutter,
                    &mut room,
                    port,
                    &buffer[..more],
                ) {
                    Ok(played) => store = played,
                    Err(Halted { end, disk }) => return (end, disk),
                }
            }
        }
    }
}

// Plays what stands behind the last line feed, where it is not empty: the script has ended.
fn finish<D: Disk, P: Port>(
    alloc: Global,
    store: Store<D>,
    script: &mut Script,
    cutter: &mut LineCutter,
    room: &mut Room,
    port: &mut P,
) -> (ScriptEnd, D)
    requires limit { cutter.old.limit ≡ line_limit }
    requires fed { (stream : List ℕ) × WasFed stream cutter.old }
    requires ready { IsReady script.old.clock script.old.setup store.state.sum.text }
    ensures finished { (b : Begun D) (stream : List ℕ) → WasFed stream cutter.old → length stream ≤ input_limit
        → SoFar D.seen b (ended_lines stream) script.old store (P.seen port.old) → script.old.number ≡ length (ended_lines stream)
        → Finishes D.seen b (ended_lines stream) (lines stream) result.0 (P.seen port.new) result.1 script.new.tally }
    ensures only { OnlyWrites (P.seen port.old) (P.seen port.new) }
{
    let Some(cut) = cutter.finish() else {
        return (ScriptEnd::Done, script.close(store));
    };
    match play_last(alloc, store, script, room, port, cut, cutter.line()) {
        Ok(store) => (ScriptEnd::Done, script.close(store)),
        Err(Halted { end, disk }) => (end, disk),
    }
}
