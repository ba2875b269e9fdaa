// Playing the lines of a panel's input.
ghost use Rattle.std.specs.Prelude.{◌≡◌, ◌<◌, ◌≤◌, ◌^◌, [], ℕ, List, false, true, length};
ghost use Rattle.std.specs.Str.Lines.{lines};
ghost use Rattle.arc_data.specs.Digits.{is_capital_hex, is_run};
ghost use Rattle.arc_io.specs.Seen.{PortSeen};
ghost use Rattle.arc_io.specs.Told.{OnlyWrites};
ghost use Rattle.arc_text.specs.LineCutting.{WasFed};
ghost use Rattle.arc_text.specs.Lines.{ended_lines};
ghost use Rattle.panel_rules.specs.Panels.{Setting};
ghost use Rattle.arc_panel.specs.Ends.{HasPlayed, setting_of};
ghost use Rattle.arc_panel.specs.Lines.{line_limit};
ghost use Rattle.arc_panel.specs.Playing.{Finishes, SoFar};

use crate::play::{PanelEnd, Player, play_ended, play_line};
use arc_data::Txt;
use arc_io::{Failed, Port};
use arc_text::LineCutter;
use panel_core::Panel;
use session_rules::{PIECE, read_piece, room_behind};
use std::alloc::Global;

// How many bytes a line has at most.
const LINE_LIMIT: usize = 16_384;

// The number of the first message.
const FIRST_NUMBER: u16 = 1;

/// Plays the lines on the port's source over a new panel of this account, of the line 0, whose first message has the number 1, and writes
/// what it does to the port's sink, a line for each. The port's clock is not asked: the lines say at which moment a step is done.
pub fn run_panel<P: Port>(alloc: Global, account: Txt, port: &mut P) -> PanelEnd
    requires account { is_run is_capital_hex 3 16 account ≡ true }
    requires not_ended { (P.seen port.old).ended ≡ false }
    ensures played { HasPlayed (setting_of account) result (P.seen port.old) (P.seen port.new) }
{
    let Some(line) = Txt::of(b"0") else {
        return PanelEnd::Memory;
    };
    let Some(panel) = Panel::new(alloc, account, line, FIRST_NUMBER) else {
        return PanelEnd::Memory;
    };
    let mut player = Player { panel, number: 0 };
    read_lines(alloc, &mut player, port)
}

// Reads the lines, and plays them.
fn read_lines<P: Port>(alloc: Global, player: &mut Player, port: &mut P) -> PanelEnd
    requires not_ended { (P.seen port.old).ended ≡ false }
    requires number { player.old.number ≡ 0 }
    requires count { length player.old.panel.acked ≡ 0 }
    ensures played { (s : Setting) → SoFar s (P.seen port.old) [] player.old (P.seen port.old) → HasPlayed s result (P.seen port.old) (P.seen port.new) }
{
    let mut cutter = LineCutter::new(LINE_LIMIT);
    let mut buffer = [0; PIECE];
    let mut count = 0;
    'pieces: loop {
        let most = (PIECE as u64).min(room_behind(count)) as usize;
        if most == 0 {
            return PanelEnd::Spent;
        }
        match read_piece(port, &mut buffer, most) {
            Err(Failed) => return PanelEnd::ReadFault,
            Ok(0) => return finish(alloc, player, &mut cutter, port),
            Ok(more) => {
                count += more as u64;
                if let Err(end) = play_ended(alloc, player, &mut cutter, port, &buffer[..more]) {
                    return end;
                }
            }
        }
    }
}

// Plays what stands behind the last line feed, where it is not empty: the input has ended.
fn finish<P: Port>(
    alloc: Global,
    player: &mut Player,
    cutter: &mut LineCutter,
    port: &mut P,
) -> PanelEnd
    requires limit { cutter.old.limit ≡ line_limit }
    requires few { player.old.number < 2 ^ 48 }
    requires count { length player.old.panel.acked ≤ player.old.number }
    ensures finished { (s : Setting) (p : PortSeen) (stream : List ℕ) → WasFed stream cutter.old
        → SoFar s p (ended_lines stream) player.old (P.seen port.old) → Finishes s p (ended_lines stream) (lines stream) result (P.seen port.new) }
    ensures only { OnlyWrites (P.seen port.old) (P.seen port.new) }
{
    let Some(cut) = cutter.finish() else {
        return PanelEnd::Done;
    };
    match play_line(alloc, player, port, cut, cutter.line()) {
        Ok(()) => PanelEnd::Done,
        Err(end) => end,
    }
}
