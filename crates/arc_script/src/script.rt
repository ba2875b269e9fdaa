// What a script keeps between two of its lines, beside the store.
ghost use Rattle.std.specs.Prelude.{◌≡◌, ◌-◌, ◌<◌, ◌≤◌, ◌^◌, true, None, length, vec_len, All, IfOk, IsOk};
ghost use Rattle.alarm_rules.specs.Setups.{setup_of};
ghost use Rattle.arc_data.specs.Digits.{is_name};
ghost use Rattle.script_lines.specs.Lines.{IsNumber};
ghost use Rattle.arc_script.specs.Feeding.{AreNew};
ghost use Rattle.arc_script.specs.Names.{line_name};
ghost use Rattle.arc_script.specs.Playing.{IsNewDesk};

use crate::script_end::Tally;
use accounts::Setup;
use arc_data::{Memory, Txt};
use arc_io::Disk;
use centre_core::Centre;
use centre_store::Store;
use desk_session::DeskState;
use disk_journal::Limits;
use line_session::LineState;
use std::alloc::Global;

/// The receiver's lines and desks, the moment that was set last, and what is counted.
pub(crate) struct Script {
    pub(crate) setup: Setup,
    pub(crate) limits: Limits,
    pub(crate) lines: Vec<LineState>,
    pub(crate) desks: Vec<DeskState>,
    // None before the first `T`: no run has begun.
    pub(crate) clock: Option<u64>,
    // How many lines of the script were read.
    pub(crate) number: u64,
    // How many incidents were opened before.
    pub(crate) opened_before: u64,
    // The sum so far. What is told of the centre is taken when the store is closed.
    pub(crate) tally: Tally,
    ghost valid: { IsOk (setup_of setup) },
    ghost few: { limits.bytes < 2 ^ 32 },
    ghost sixteen: { vec_len lines ≡ 16 },
    ghost eight: { vec_len desks ≡ 8 },
}

// Written out: one call wherever one is dropped, where a derived drop is spelled out at each exit.
impl Drop for Script {
    fn drop(self) {
        let Script {
            setup,
            limits: _,
            lines,
            desks,
            clock: _,
            number: _,
            opened_before: _,
            tally: _,
        } = self;
        drop(setup);
        drop(lines);
        drop(desks);
    }
}

impl Script {
    /// Before the first line of a script, over a store of this centre.
    pub(crate) fn new(
        alloc: Global,
        setup: Setup,
        limits: Limits,
        centre: &Centre,
    ) -> Result<Script, Memory>
        requires few { limits.bytes < 2 ^ 32 }
        ensures given { IfOk result (λ s. (s.setup ≡ setup) × (s.limits ≡ limits)) }
        ensures lines { IfOk result (λ s. AreNew s.lines.items) }
        ensures desks { IfOk result (λ s. All IsNewDesk s.desks.items) }
        ensures begun { IfOk result (λ s. (s.clock ≡ None) × (s.number ≡ 0)) }
        ensures counts { IfOk result (λ s. s.opened_before ≡ centre.now.sum.opened) }
        ensures tally { IfOk result (λ s. s.tally ≡ record {
          sent = 0;
          repeats = 0;
          recorded = centre.now.sum.recorded;
          opened = 0;
          closed = 0;
          total = length centre.now.sum.incidents;
        }) }
    {
        let lines = new_lines(alloc)?;
        let desks = new_desks(alloc)?;
        let _ = setup.text();
        Ok(Script {
            setup,
            limits,
            lines,
            desks,
            clock: None,
            number: 0,
            opened_before: centre.table().opened(),
            tally: tally_of(centre),
        })
    }

    /// All lines and desks are made anew.
    pub(crate) fn renew(&mut self)
        ensures lines { AreNew self.new.lines.items }
        ensures desks { All IsNewDesk self.new.desks.items }
        ensures rest { self.new ≡ record self.old {
          lines = self.new.lines;
          desks = self.new.desks;
          sixteen = self.new.sixteen;
          eight = self.new.eight;
        } }
    {
        renew_lines(&mut self.lines);
        renew_desks(&mut self.desks);
    }

    /// Takes what is told of the centre, and closes the store.
    pub(crate) fn close<D: Disk>(&mut self, store: Store<D>) -> D
        ensures disk { result ≡ store.journal.disk }
        ensures later { store.at_open ≤ (D.seen store.journal.disk).faults }
        ensures tally { self.new ≡ record self.old {
          tally = record self.old.tally {
            recorded = store.state.sum.recorded;
            opened = store.state.sum.opened - self.old.opened_before;
            total = length store.state.sum.incidents;
          };
        } }
    {
        let table = store.centre().table();
        self.tally.opened = table.opened().saturating_sub(self.opened_before);
        self.tally.total = table.count() as u64;
        self.tally.recorded = store.centre().recorded();
        let _ = store.at_open();
        store.close()
    }
}

/// What is told of a centre with which nothing was done.
pub(crate) fn tally_of(centre: &Centre) -> Tally
    ensures { result ≡ record { sent = 0; repeats = 0; recorded = centre.now.sum.recorded; opened = 0; closed = 0; total = length centre.now.sum.incidents } }
{
    Tally {
        sent: 0,
        repeats: 0,
        recorded: centre.recorded(),
        opened: 0,
        closed: 0,
        total: centre.table().count() as u64,
    }
}

/// The name of the receiver's line of this number: `l`, and the number.
pub(crate) fn name_of(line: usize) -> Txt
    requires { IsNumber 16 line }
    ensures value { result ≡ line_name line }
    ensures name { is_name result ≡ true }
{
    let last = b'0' + (line % 10) as u8;
    let name = if line < 10 {
        Txt::of(&[b'l', last])
    } else {
        Txt::of(&[b'l', b'1', last])
    };
    match name {
        Some(name) => name,
        None => unreachable!(),
    }
}

// Sixteen lines of which no byte was taken, each under its name.
fn new_lines(alloc: Global) -> Result<Vec<LineState>, Memory>
    ensures new { IfOk result (λ lines. AreNew lines.items) }
    ensures count { IfOk result (λ lines. vec_len lines ≡ 16) }
{
    let mut lines = Vec::new(alloc);
    while lines.len() < 16 {
        let name = name_of(lines.len() + 1);
        let Ok(()) = lines.push(LineState::new(name)) else {
            return Err(Memory);
        };
    }
    Ok(lines)
}

// Eight desks of which no byte was taken.
fn new_desks(alloc: Global) -> Result<Vec<DeskState>, Memory>
    ensures new { IfOk result (λ desks. All IsNewDesk desks.items) }
    ensures count { IfOk result (λ desks. vec_len desks ≡ 8) }
{
    let mut desks = Vec::new(alloc);
    while desks.len() < 8 {
        let Ok(()) = desks.push(new_desk()) else {
            return Err(Memory);
        };
    }
    Ok(desks)
}

fn renew_lines(lines: &mut [LineState])
    requires { length lines.old ≤ 16 }
    ensures { AreNew lines.new }
{
    let mut place = 0;
    while place < lines.len() {
        lines[place].renew(name_of(place + 1));
        place += 1;
    }
}

fn renew_desks(desks: &mut [DeskState])
    ensures { All IsNewDesk desks.new }
{
    for desk in desks.iter_mut() {
        *desk = new_desk();
    }
}

fn new_desk() -> DeskState
    ensures { IsNewDesk result }
{
    DeskState::new()
}
