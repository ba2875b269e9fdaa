// How a script ends, and what was counted over it.
use centre_core::Stop;
use disk_journal::OpenFault;

/// How a script ended.
#[derive(Clone, Copy, Debug, PartialEq, Eq)]
pub enum ScriptEnd {
    /// It was read to its end, and each line of it was carried out.
    Done,
    /// A read failed. All lines that a line feed ends before that were carried out.
    ReadFault,
    /// A write failed within the output of the last line, which was carried out.
    WriteFault,
    /// 1,099,511,627,776 bytes (2^40) were read. All lines that a line feed ends were carried out.
    Spent,
    /// The line of this number, from 1, is none of a script, or comes before the first `T`. The lines before it were carried out.
    BadScript { line: u64 },
    /// The journal could not be opened: at the beginning, or again by an `X`.
    Refused(OpenFault),
    /// The store did not take an event, or memory was wanted. The line that asked for it has no output.
    Stopped(Stop),
}

/// What was counted over a script.
#[derive(Clone, Copy, Debug, PartialEq, Eq)]
pub struct Tally {
    /// The whole frames that were fed to lines.
    pub sent: u64,
    /// The messages that were repeats.
    pub repeats: u64,
    /// The recorded entries of the centre at the end, from the journal's beginning on.
    pub recorded: u64,
    /// The incidents that were opened.
    pub opened: u64,
    /// The incidents that were closed.
    pub closed: u64,
    /// The incidents that are open at the end.
    pub total: u64,
}

/// What is handed back of a script.
#[derive(Drop)]
pub struct ScriptEnded<D> {
    pub end: ScriptEnd,
    pub disk: D,
    pub tally: Tally,
}
