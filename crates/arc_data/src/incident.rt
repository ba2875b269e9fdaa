// Open incidents, and the signals that open them.
use crate::{Acts, Class, Signal, StepList, Txt};

/// An open incident. Moments are seconds since 1970, GMT. The code is that of the signal that opened it; `signals` counts
/// the New and Again signals since; `via` names the line
/// by which that signal came, and is empty where no panel sent it; `touched` is the moment of the last claim or act while it is held, and otherwise 0.
#[derive(Drop)]
pub struct Incident {
    pub number: u64,
    pub account: Txt,
    pub class: Class,
    pub code: Txt,
    pub at: u64,
    pub signals: u64,
    pub restored: bool,
    pub holder: Option<Txt>,
    pub touched: u64,
    pub steps: StepList,
    pub acts: Acts,
    pub via: Txt,
}

/// A signal that an entry carries: of which account, at which moment, whether a Tick raised it, and the steps of the
/// incident that it would open, with the name of the line by which the signal came, empty where no panel sent it.
#[derive(Drop)]
pub struct Carried {
    pub account: Txt,
    pub signal: Signal,
    pub at: u64,
    pub by_tick: bool,
    pub steps: StepList,
    pub via: Txt,
}

/// Since when an account is open: the moment of its last opening signal, and whether a Tick has raised a late closing of it
/// since.
#[derive(Clone, Copy, Debug, PartialEq, Eq)]
pub struct Opened {
    pub at: u64,
    pub late: bool,
}
