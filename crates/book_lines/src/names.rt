// The names of kinds, outcomes and codes.
ghost use Rattle.std.specs.Prelude.{◌≡◌, ◌≤◌, length};
ghost use Rattle.book_lines.specs.Lines.{kind_name};
ghost use Rattle.desk_wire.specs.Names.{outcome_name, code_name};

use arc_data::{CloseCode, Kind, Outcome};

/// The name of a kind of signals.
pub(crate) fn kind_name(kind: Kind) -> &'static [u8]
    ensures name { result.now ≡ kind_name kind }
    ensures short { length result.now ≤ 7 }
{
    match kind {
        Kind::New => b"new",
        Kind::Again => b"again",
        Kind::Restore => b"restore",
        Kind::Opening => b"opening",
        Kind::Closing => b"closing",
        Kind::LogOnly => b"log",
    }
}

/// The name of an outcome.
pub(crate) fn outcome_name(outcome: Outcome) -> &'static [u8]
    ensures name { result.now ≡ outcome_name outcome }
    ensures short { length result.now ≤ 8 }
{
    match outcome {
        Outcome::Reached => b"reached",
        Outcome::NoAnswer => b"noanswer",
        Outcome::Done => b"done",
    }
}

/// The name of a code that an incident is closed with.
pub(crate) fn code_name(code: CloseCode) -> &'static [u8]
    ensures name { result.now ≡ code_name code }
    ensures short { length result.now ≤ 5 }
{
    match code {
        CloseCode::Real => b"real",
        CloseCode::False => b"false",
        CloseCode::Test => b"test",
    }
}
