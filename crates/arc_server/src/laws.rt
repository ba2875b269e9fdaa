// Laws of what is said of a run.
ghost use Rattle.std.specs.Prelude.{ℕ, Bool, Err};
ghost use Rattle.arc_io.specs.Seen.{PortSeen};
ghost use Rattle.arc_serving.specs.Seen.{StationSeen};
ghost use Rattle.arc_serving.specs.Sessions.{ShowsEnd};
ghost use Rattle.centre_store.specs.StoreHalls.{store_seen};
ghost use Rattle.udp_line.specs.Mails.{ShowsStop};
ghost use Rattle.arc_server.specs.Handed.{Handed};
ghost use Rattle.arc_server.specs.MailRuns.{AnswersMail};
ghost use Rattle.arc_server.specs.ServeRuns.{ServesAll};
ghost use Rattle.arc_server.specs.SessionRuns.{ServesRun};
ghost use Rattle.arc_server.specs.Shows.{IsShownBy};

use crate::status::Status;
use arc_io::Disk;
use arc_serving::{Crew, Side};

/// The status of a run that served callers shows what occurred: an end of all that nothing stopped, or the first thing that went wrong.
pub fn law_status_shows<D: Disk>()
    ensures { (groups : Bool) (crew : Crew) (status : Status) (r r' : Handed D) (around around' : StationSeen)
        (run : ServesAll D.seen groups crew status r r' around around')
        → IsShownBy status (D.seen r.disk).faults (D.seen r'.disk).faults run.p r'.port run.came }
{}

/// The store at the end of a session shows the stop that ended it, or memory was wanted: of a line or desk, and of datagrams.
pub fn law_stop_shows<D: Disk>()
    ensures session { (side : Side) (status : Status) (r r' : Handed D) (run : ServesRun D.seen side status r r')
        → ShowsEnd run.end (store_seen D.seen run.last) }
    ensures mail { (count : ℕ) (status : Status) (r r' : Handed D) (m m' : PortSeen) (run : AnswersMail D.seen count status r r' m m')
        → ShowsStop (Err run.end) (store_seen D.seen run.last) }
{}
