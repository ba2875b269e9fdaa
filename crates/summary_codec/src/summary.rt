// A whole summary, read.
ghost use Rattle.std.specs.Prelude.{◌≡◌, IfOk, MatchOption};
ghost use Rattle.event_codec.specs.Spelling.{IsVersion};
ghost use Rattle.summary_codec.specs.Parts.{IsNoText, IsTextOf};

use crate::head::{Head, head_at};
use crate::reading::{ReadRow, incidents_at, rows_at};
use arc_data::{Incident, Memory};
use std::alloc::Global;

/// The parts of a summary.
pub struct ReadSummary<'a> {
    pub head: Head<'a>,
    pub rows: Vec<ReadRow>,
    pub incidents: Vec<Incident>,
}

// Written out: one call wherever one is dropped, where a derived drop is spelled out at each exit.
impl Drop for ReadSummary<'_> {
    fn drop(self) {
        let ReadSummary {
            head: _,
            rows,
            incidents,
        } = self;
        drop(rows);
        drop(incidents);
    }
}

impl<'a> ReadSummary<'a> {
    /// The head, the rows and the incidents, each by itself.
    pub fn parts(self) -> (Head<'a>, Vec<ReadRow>, Vec<Incident>)
        ensures head { result.0 ≡ self.entry.head }
        ensures rows { result.1 ≡ self.entry.rows }
        ensures incidents { result.2 ≡ self.entry.incidents }
    {
        let ReadSummary {
            head,
            rows,
            incidents,
        } = self;
        (head, rows, incidents)
    }
}

/// What the bytes of a summary of the version, which is 1 or 2, say, each field of which is in its range. None exactly where they are not the
/// bytes of one. What has to hold of a summary besides is not looked at. The error is want of memory.
pub fn summary_read(
    alloc: Global,
    version: u8,
    bytes: &[u8],
) -> Result<Option<ReadSummary<'_>>, Memory>
    requires version { IsVersion version }
    ensures { IfOk result (λ found. MatchOption found (IsNoText version bytes.now) (IsTextOf version bytes.now)) }
{
    let Some(head) = head_at(bytes) else {
        return Ok(None);
    };
    let (rows, rest) = match rows_at(alloc, head.rest) {
        Ok(Some(found)) => found,
        Ok(None) => return Ok(None),
        Err(Memory) => return Err(Memory),
    };
    let (incidents, rest) = match incidents_at(alloc, version, rest) {
        Ok(Some(found)) => found,
        Ok(None) => return Ok(None),
        Err(Memory) => return Err(Memory),
    };
    if !rest.is_empty() {
        return Ok(None);
    }
    Ok(Some(ReadSummary {
        head,
        rows,
        incidents,
    }))
}
