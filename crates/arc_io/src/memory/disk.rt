// The disk in memory: its bytes, the calls that it keeps, and those that fail.
ghost use Rattle.std.specs.Prelude.{◌≡◌, ◌≤◌, ◌+◌, ◌++◌, ◌∷◌, ◌↔◌, [], length, vec_len, OnOk, OnErr, MatchResult, IsTrue, Contains};
ghost use Rattle.arc_io.specs.Causes.{next_count};
ghost use Rattle.arc_io.specs.KeptCalls.{content_after, written, written_in, IsKeptWrite, IsKeptSync};
ghost use Rattle.arc_io.specs.Areas.{part};
ghost use Rattle.arc_io.specs.Crashes.{IsReadInPart, IsRead};
ghost use Rattle.arc_io.specs.declared.disk.Area.TheVariants.{A, B};

use super::disk_kept::{Deed, Fill, Kept};
use super::disk_stop::{end_of, image_of};
use super::is_listed;
use crate::{Area, Disk, Failed};
use arc_data::Memory;
use std::alloc::{AllocError, Global};

/// A disk in memory. Its calls are numbered from 1, those that fail included; a number stays at the last value of
/// `u64`. A call whose number is listed fails, and so does one whose memory is refused; it changes nothing but the
/// counts of calls and of faults.
pub struct MemDisk {
    alloc: Global,
    first_a: Vec<u8>,
    first_b: Vec<u8>,
    a: Vec<u8>,
    b: Vec<u8>,
    past: Vec<Kept>,
    failing: Vec<u64>,
    calls: u64,
    faults: u64,
    ghost a_is: { a.items ≡ content_after A first_a.items past.items },
    ghost b_is: { b.items ≡ content_after B first_b.items past.items },
}

// Written out: one call wherever one is dropped, where a derived drop is spelled out at each exit.
impl Drop for MemDisk {
    fn drop(self) {
        let MemDisk {
            alloc: _,
            first_a,
            first_b,
            a,
            b,
            past,
            failing,
            calls: _,
            faults: _,
        } = self;
        drop(first_a);
        drop(first_b);
        drop(a);
        drop(b);
        drop(past);
        drop(failing);
    }
}

impl MemDisk {
    ghost use Rattle.std.specs.Prelude.{IfOk};
    ghost use Rattle.arc_io.specs.MemoryDisk.{bytes_of, failing_of, calls_of, faults_of, past_of, stopped_bytes, LeftWithin};

    /// A disk with two empty areas, which takes no memory yet. Its calls of the numbers in `failing` fail.
    pub fn new(alloc: Global, failing: Vec<u64>) -> MemDisk
        ensures bytes { bytes_of result ≡ record { a = []; b = [] } }
        ensures calls { calls_of result ≡ 0 }
        ensures faults { faults_of result ≡ 0 }
        ensures failing { failing_of result ≡ failing.items }
        ensures past { past_of result ≡ [] }
    {
        MemDisk {
            alloc,
            first_a: Vec::new(alloc),
            first_b: Vec::new(alloc),
            a: Vec::new(alloc),
            b: Vec::new(alloc),
            past: Vec::new(alloc),
            failing,
            calls: 0,
            faults: 0,
        }
    }

    /// A disk with these bytes, all of them synced. Its calls of the numbers in `failing` fail.
    pub fn of(alloc: Global, a: Vec<u8>, b: Vec<u8>, failing: Vec<u64>) -> Result<MemDisk, Memory>
        ensures bytes { IfOk result (λ d. bytes_of d ≡ record { a = a.items; b = b.items }) }
        ensures calls { IfOk result (λ d. calls_of d ≡ 0) }
        ensures faults { IfOk result (λ d. faults_of d ≡ 0) }
        ensures failing { IfOk result (λ d. failing_of d ≡ failing.items) }
        ensures past { IfOk result (λ d. past_of d ≡ []) }
    {
        let (Ok(first_a), Ok(first_b)) = (a.to_vec(alloc), b.to_vec(alloc)) else {
            return Err(Memory);
        };
        Ok(MemDisk {
            alloc,
            first_a,
            first_b,
            a,
            b,
            past: Vec::new(alloc),
            failing,
            calls: 0,
            faults: 0,
        })
    }

    /// How many calls were made.
    pub fn calls(&self) -> u64
        ensures { result ≡ calls_of self.now }
    {
        self.calls
    }

    /// The area's bytes, as reads give them.
    pub fn bytes(&self, area: Area) -> &[u8]
        ensures { result.now ≡ part area (bytes_of self.now) }
    {
        match area {
            Area::A => &self.a,
            Area::B => &self.b,
        }
    }

    /// One of the images that a stop within the call of this number leaves, as a disk without faults.
    /// What was synced before stands; what was not, a write of the call itself included, is as `fill` says.
    pub fn stopped(&self, alloc: Global, call: u64, fill: Fill) -> Result<MemDisk, Memory>
        requires made { (1 ≤ call) × (call ≤ calls_of self.now) }
        ensures image { IfOk result (λ d. LeftWithin self.now call (bytes_of d)) }
        ensures fill { IfOk result (λ d. bytes_of d ≡ stopped_bytes self.now call fill) }
        ensures calls { IfOk result (λ d. calls_of d ≡ 0) }
        ensures faults { IfOk result (λ d. (faults_of d ≡ 0) × (failing_of d ≡ [])) }
    {
        let past = &self.past[..end_of(&self.past, call)];
        let Ok(a) = image_of(alloc, &self.first_a, past, Area::A, fill) else {
            return Err(Memory);
        };
        let Ok(b) = image_of(alloc, &self.first_b, past, Area::B, fill) else {
            return Err(Memory);
        };
        MemDisk::of(alloc, a, b, Vec::new(alloc))
    }
}

// Counts a call. It is to fail where its number is listed.
fn is_to_fail(calls: &mut u64, failing: &[u64]) -> bool
    ensures listed { IsTrue result ↔ Contains failing.now calls.new }
    ensures counted { calls.new ≡ next_count calls.old }
{
    *calls = calls.saturating_add(1);
    is_listed(failing, *calls)
}

// Counts a fault.
fn fault(faults: &mut u64) -> Failed
    ensures counted { faults.new ≡ next_count faults.old }
    ensures later { faults.old ≤ faults.new }
{
    *faults = faults.saturating_add(1);
    Failed
}

// Puts the bytes at the place.
pub fn put(content: &mut Vec<u8>, at: usize, bytes: &[u8]) -> Result<(), AllocError>
    requires { at ≤ vec_len content.old }
    ensures { MatchResult result (λ _. content.new.items ≡ written at bytes.now content.old.items)
        (λ _. content.new.items ≡ content.old.items) }
{
    let inside = bytes.len().min(content.len() - at);
    content.extend_from_slice(&bytes[inside..])?;
    content[at..at + inside].copy_from_slice(&bytes[..inside]);
    Ok(())
}

// Puts the bytes at the place in the area.
fn put_in(
    a: &mut Vec<u8>,
    b: &mut Vec<u8>,
    area: Area,
    at: u64,
    bytes: &[u8],
) -> Result<(), AllocError>
    requires { at ≤ length (part area (record { a = a.old.items; b = b.old.items })) }
    ensures { MatchResult result
        (λ _. (a.new.items ≡ written_in A area at bytes.now a.old.items) × (b.new.items ≡ written_in B area at bytes.now b.old.items))
        (λ _. (a.new.items ≡ a.old.items) × (b.new.items ≡ b.old.items)) }
{
    match area {
        Area::A => put(a, at as usize, bytes),
        Area::B => put(b, at as usize, bytes),
    }
}

// Keeps the write and does it, or changes nothing where memory is refused.
fn keep_write(
    alloc: Global,
    past: &mut Vec<Kept>,
    a: &mut Vec<u8>,
    b: &mut Vec<u8>,
    call: u64,
    area: Area,
    at: u64,
    bytes: &[u8],
) -> Result<(), AllocError>
    requires { at ≤ length (part area (record { a = a.old.items; b = b.old.items })) }
    ensures { MatchResult result
        (λ _. IsKeptWrite past.old.items past.new.items call area at bytes.now
        × (a.new.items ≡ written_in A area at bytes.now a.old.items) × (b.new.items ≡ written_in B area at bytes.now b.old.items))
        (λ _. (past.new.items ≡ past.old.items) × (a.new.items ≡ a.old.items) × (b.new.items ≡ b.old.items)) }
{
    let deed = Deed::Write {
        at,
        bytes: bytes.to_vec(alloc)?,
    };
    past.push(Kept { call, area, deed })?;
    match put_in(a, b, area, at, bytes) {
        Ok(()) => Ok(()),
        Err(error) => {
            let _ = past.pop();
            Err(error)
        }
    }
}

// Keeps the sync, or changes nothing where memory is refused.
fn keep_sync(past: &mut Vec<Kept>, call: u64, area: Area) -> Result<(), AllocError>
    ensures { MatchResult result (λ _. IsKeptSync past.old.items past.new.items call area) (λ _. past.new.items ≡ past.old.items) }
{
    let deed = Deed::Sync;
    past.push(Kept { call, area, deed })?;
    Ok(())
}

// Gives as many bytes as stand from the place on, up to the buffer's length.
#[tactic(auto, using(crate::proofs::Given::all_given))]
fn read_from(content: &[u8], at: u64, buf: &mut [u8]) -> usize
    ensures within { result ≤ length buf.new }
    ensures read { IsRead content.now at result buf.new }
    ensures given { IsReadInPart content.now at result buf.new }
{
    if at >= content.len() as u64 {
        return 0;
    }
    let rest = &content[at as usize..];
    let count = rest.len().min(buf.len());
    buf[..count].copy_from_slice(&rest[..count]);
    count
}

impl Disk for MemDisk {
    ghost use Rattle.std.specs.Prelude.{IfOk, OnOk};
    ghost use Rattle.std.specs.Io.{ReadsAtMost};
    ghost use Rattle.arc_io.specs.Areas.{Areas};
    ghost use Rattle.arc_io.specs.Causes.{IsCounted};
    ghost use Rattle.arc_io.specs.Crashes.{Becomes, IsAfterWrite, TornIn, Follows, OnlyIn, Elapses};
    ghost use Rattle.arc_io.specs.MemoryDisk.{bytes_of, calls_of, disk_seen, faults_of, past_of, ReadsOnly, Does};
    ghost use Rattle.arc_io.specs.DiskClock.{left_now, left_only_now, never_silent};

    ghost seen = { disk_seen };

    ghost silent = { λ d c none. never_silent d c none };

    ghost counts_now = { λ d t c le now. left_now d t c le now };

    ghost only_now = { λ d c left. left_only_now d c left };

    fn length(&mut self, area: Area) -> Result<u64, Failed>
        ensures bytes { IfOk result (λ n. n ≡ length (part area (bytes_of self.old))) }
        ensures told { (disk_seen self.new).told ≡ (disk_seen self.old).told }
        ensures crash { (c : Areas) → (disk_seen self.new).may_leave c → (disk_seen self.old).may_leave c }
        ensures time { Elapses (disk_seen self.old) (disk_seen self.new) }
        ensures cause { IsCounted (faults_of self.old) (faults_of self.new) result }
        ensures exact { ReadsOnly self.old self.new result }
    {
        if is_to_fail(&mut self.calls, &self.failing) {
            return Err(fault(&mut self.faults));
        }
        let len = match area {
            Area::A => self.a.len(),
            Area::B => self.b.len(),
        };
        Ok(len as u64)
    }

    fn read_at(&mut self, area: Area, at: u64, buf: &mut [u8]) -> Result<usize, Failed>
        ensures bound { ReadsAtMost result buf.new }
        ensures bytes { IfOk result (λ n. IsReadInPart (part area (bytes_of self.old)) at n buf.new) }
        ensures all { IfOk result (λ n. IsRead (part area (bytes_of self.old)) at n buf.new) }
        ensures told { (disk_seen self.new).told ≡ (disk_seen self.old).told }
        ensures crash { (c : Areas) → (disk_seen self.new).may_leave c → (disk_seen self.old).may_leave c }
        ensures time { Elapses (disk_seen self.old) (disk_seen self.new) }
        ensures cause { IsCounted (faults_of self.old) (faults_of self.new) result }
        ensures exact { ReadsOnly self.old self.new result }
        ensures untouched { OnErr result (buf.new ≡ buf.old) }
    {
        if is_to_fail(&mut self.calls, &self.failing) {
            return Err(fault(&mut self.faults));
        }
        match area {
            Area::A => Ok(read_from(&self.a, at, buf)),
            Area::B => Ok(read_from(&self.b, at, buf)),
        }
    }

    fn write_at(&mut self, area: Area, at: u64, bytes: &[u8]) -> Result<(), Failed>
        requires place { at ≤ length (part area (bytes_of self.old)) }
        ensures written { Becomes (disk_seen self.old).told (disk_seen self.new).told (IsAfterWrite result area at bytes.now) }
        ensures crash { Follows (TornIn area at (length bytes.now)) (disk_seen self.old).may_leave (disk_seen self.new).may_leave }
        ensures time { Elapses (disk_seen self.old) (disk_seen self.new) }
        ensures cause { IsCounted (faults_of self.old) (faults_of self.new) result }
        ensures exact { Does self.old self.new result
            (IsKeptWrite (past_of self.old) (past_of self.new) (calls_of self.new) area at bytes.now) }
    {
        if is_to_fail(&mut self.calls, &self.failing) {
            return Err(fault(&mut self.faults));
        }
        let kept = keep_write(
            self.alloc,
            &mut self.past,
            &mut self.a,
            &mut self.b,
            self.calls,
            area,
            at,
            bytes,
        );
        match kept {
            Ok(()) => Ok(()),
            Err(_) => Err(fault(&mut self.faults)),
        }
    }

    fn sync(&mut self, area: Area) -> Result<(), Failed>
        ensures durable { OnOk result (OnlyIn area (bytes_of self.old) (disk_seen self.new).may_leave) }
        ensures told { (disk_seen self.new).told ≡ (disk_seen self.old).told }
        ensures crash { (c : Areas) → (disk_seen self.new).may_leave c → (disk_seen self.old).may_leave c }
        ensures time { Elapses (disk_seen self.old) (disk_seen self.new) }
        ensures cause { IsCounted (faults_of self.old) (faults_of self.new) result }
        ensures exact { Does self.old self.new result (IsKeptSync (past_of self.old) (past_of self.new) (calls_of self.new) area) }
    {
        if is_to_fail(&mut self.calls, &self.failing) {
            return Err(fault(&mut self.faults));
        }
        match keep_sync(&mut self.past, self.calls, area) {
            Ok(()) => Ok(()),
            Err(_) => Err(fault(&mut self.faults)),
        }
    }

    fn faults(&self) -> u64 {
        self.faults
    }
}
