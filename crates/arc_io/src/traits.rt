// The traits of the outside.
ghost use Rattle.std.specs.Prelude.{◌≡◌, [], false, IfOk};
ghost use Rattle.std.specs.Io.{ReadsAtMost, WritesAtMost};
ghost use Rattle.arc_data.specs.Moments.{IsMoment};
ghost use Rattle.arc_io.specs.Seen.{PortSeen, untold};
ghost use Rattle.arc_io.specs.Told.{Reads, Writes, after_reading, after_noise};

use crate::refusal::Refusal;
use arc_data::Txt;

/// The object did not do what was asked. Its count of faults rose, or stands at the last value of `u64`.
#[derive(Clone, Copy, Debug, PartialEq, Eq)]
pub struct Failed;

/// What clauses know of an object of the outside. It has no calls: each call of the traits below says what it
/// changes of this, and that all else stays.
pub trait Ends {
    /// What it tells at a moment.
    ghost seen: { Self → PortSeen } = { λ _. untold };
}

/// Bytes that come in.
pub trait Source: Ends {
    /// Gives the next bytes, at most as many as the buffer has room for, and answers how many. 0 on a
    /// buffer that is not empty is the end of the input. Behind that nothing may be read: a terminal would ask again.
    fn read(&mut self, buf: &mut [u8]) -> Result<usize, Failed>
        requires { (Self.seen self.old).ended ≡ false }
        ensures bound { ReadsAtMost result buf.new }
        ensures told { Reads (Self.seen self.old) (Self.seen self.new) result buf.new };

    /// How often a read has failed. It never falls, and stands still at the last value of `u64`.
    fn read_faults(&self) -> u64
        ensures { result ≡ (Self.seen self.now).read_faults };
}

/// Bytes that go out.
pub trait Sink: Ends {
    /// Takes bytes from the front, and answers how many: at least one where there is one.
    fn write(&mut self, bytes: &[u8]) -> Result<usize, Failed>
        ensures bound { WritesAtMost result bytes.now }
        ensures some { IfOk result (λ count. count ≡ 0 → bytes.now ≡ []) }
        ensures told { Writes (Self.seen self.old) (Self.seen self.new) result bytes.now };

    /// How often a write has failed. It never falls, and stands still at the last value of `u64`.
    fn write_faults(&self) -> u64
        ensures { result ≡ (Self.seen self.now).write_faults };
}

/// The time.
pub trait Clock: Ends {
    /// Seconds since 1970 (GMT), before the year 10000. A reading may be earlier than the one before.
    fn now(&mut self) -> u64
        ensures bound { IsMoment result }
        ensures told { Self.seen self.new ≡ after_reading result (Self.seen self.old) };
}

/// Bytes that nobody can foretell.
pub trait Noise: Ends {
    /// Ten bytes.
    fn ten(&mut self) -> [u8; 10]
        ensures { Self.seen self.new ≡ after_noise result (Self.seen self.old) };
}

/// All that a session needs.
pub trait Port: Source + Sink + Clock + Noise {
    /// Is told that a message of this account, as it came, was refused, and why. A port may say so to those who look after the station, and
    /// does nothing where it does not: what clauses know of it stays.
    fn refused(&mut self, _account: &Txt, _why: Refusal)
        ensures { Self.seen self.new ≡ Self.seen self.old }
    {}
}
