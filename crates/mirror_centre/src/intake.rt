// Reading the bytes of a message, and none behind it.
ghost use Rattle.std.specs.Prelude.{◌≡◌, ◌≤◌, false, IfErr, IfOk, length};
ghost use Rattle.arc_io.specs.Told.{OnlyReads};
ghost use Rattle.session_rules.specs.Inputs.{input_limit};
ghost use Rattle.mirror_centre.specs.Intakes.{AreBytes, ReadsNext, ReadsShort};

use arc_io::{Failed, Port};
use session_rules::{PIECE, read_piece, room_behind};
use std::alloc::Global;

/// Why so many bytes of an input were not read.
#[derive(Clone, Copy, Debug, PartialEq, Eq)]
pub(crate) enum Short {
    /// The input ended before.
    Ended,
    /// A read failed.
    Failed,
    /// 2^40 bytes of the input were read.
    Spent,
    /// Want of memory.
    Memory,
}

/// Reads the next bytes, so many, behind those of the input that were taken before. Memory is taken as they come.
#[tactic(auto, using(arc_io::proofs::KnownMore::known_taken))]
pub(crate) fn read_next<P: Port>(
    alloc: Global,
    port: &mut P,
    taken: u64,
    count: usize,
) -> Result<Vec<u8>, Short>
    requires not_ended { (P.seen port.old).ended ≡ false }
    requires taken { taken ≤ input_limit }
    ensures read { IfOk result (λ bytes. ReadsNext taken count bytes.items (P.seen port.old) (P.seen port.new)) }
    ensures short { IfErr result (λ why. ReadsShort why taken count (P.seen port.old) (P.seen port.new)) }
    ensures only { OnlyReads (P.seen port.old) (P.seen port.new) }
    ensures later { (P.seen port.old).read_faults ≤ (P.seen port.new).read_faults }
{
    let room = room_behind(taken);
    let mut piece = [0; PIECE];
    let mut bytes = Vec::new(alloc);
    'pieces: while bytes.len() < count {
        let wanted = piece.len().min(count - bytes.len()) as u64;
        let most = wanted.min(room - bytes.len() as u64) as usize;
        if most == 0 {
            return Err(Short::Spent);
        }
        match read_piece(port, &mut piece, most) {
            Err(Failed) => return Err(Short::Failed),
            Ok(0) => return Err(Short::Ended),
            Ok(size) => {
                let Ok(()) = bytes.extend_from_slice(&piece[..size]) else {
                    return Err(Short::Memory);
                };
            }
        }
    }
    known(&bytes);
    Ok(bytes)
}

// Does nothing. Proofs take from it that each byte is one.
fn known(bytes: &[u8])
    ensures { AreBytes bytes.now }
{}
