// How an area is read when a journal is opened.
ghost use Rattle.std.specs.Prelude.{◌≡◌, ◌≢◌, ◌≤◌, ◌<◌, ◌+◌, ◌^◌, [], ◌∷◌, ℕ, List, true, None, is_some, length, take, drop, slice_index, OnOk, OnErr, IfOk, IfErr, IfSome, MatchOption, vec_len};
ghost use Rattle.std.specs.Int.{to_be_bytes, from_be_bytes, w32, w64};
ghost use Rattle.arc_io.specs.Areas.{Areas, part};
ghost use Rattle.arc_io.specs.Crashes.{Becomes, Follows, IsQuiet, OnlyIn, LeavesTorn, TornIn};
ghost use Rattle.arc_io.specs.Causes.{IsCounted};
ghost use Rattle.disk_journal.specs.Records.{AtRest, IsVersion, Stands, head_of, size, most_at};
ghost use Rattle.disk_journal.specs.Faults.{IsShown, IsOfContent, IsOfFront, HasCause};
ghost use Rattle.disk_journal.specs.Reading.{Shows, IsGate, IsRecord, IsBrokenAt, IsFound, IsSelected, found_or_none};
ghost use Rattle.disk_journal.specs.Journal.{IsSettled, IsAtRestIn};
ghost use Rattle.disk_journal.specs.OtherArea.{SparesOther};
ghost use Rattle.disk_journal.specs.Standing.{chosen, chosen_part, choice, version_now, GoesOn};
ghost use Rattle.disk_journal.specs.Turning.{Changes};

use crate::bodies::Bodies;
use crate::fault::OpenFault;
use crate::filled::read;
use crate::window::Window;
use arc_io::{Area, Disk, Failed, write_synced};
use std::alloc::Global;

const NAME: [u8; 12] = *b"ARC JOURNAL ";

// The head of the first version, which is read but no more written.
const FIRST_HEAD: [u8; 16] = *b"ARC JOURNAL 0001";

// The head of the second.
pub const HEAD: [u8; 16] = *b"ARC JOURNAL 0002";

// What a new area begins with: the head and a closed gate.
pub const FRESH: [u8; 17] = *b"ARC JOURNAL 0002\0";

// The version that is written.
pub const WRITTEN: u8 = 2;

// The most bytes that a body may have, wherever it stands.
const MOST: u32 = 4_194_400;

// The place of the first gate.
const FIRST: u64 = 16;

// The first byte of the body of a summary.
const TAG: u8 = 11;

// How many bytes are read at a time.
const PIECE: u64 = 1 << 20;

// The version and the bodies that were read, and the place of the closed gate, plus 1.
#[derive(Drop)]
struct Records {
    version: u8,
    bodies: Bodies,
    used: u64,
}

// The area that is chosen, its generation where it is live, and its length.
#[derive(Clone, Copy)]
struct Selected {
    area: Area,
    found: Option<u64>,
    len: u64,
}

// What was read of it.
#[derive(Drop)]
pub struct Loaded {
    pub area: Area,
    pub found: Option<u64>,
    pub version: u8,
    pub bodies: Bodies,
    pub used: u64,
}

// The number in the first four of five bytes, from which they come back.
fn number_in(prefix: &[u8; 5]) -> u32
    ensures number { result ≡ from_be_bytes w32 (take 4 prefix.now) }
    ensures back { to_be_bytes w32 result ≡ take 4 prefix.now }
{
    let mut size = [0; 4];
    size.copy_from_slice(&prefix[..4]);
    four_in(&size)
}

// The number in four bytes, from which they come back.
fn four_in(size: &[u8; 4]) -> u32
    ensures number { result ≡ from_be_bytes w32 size.now }
    ensures back { to_be_bytes w32 result ≡ size.now }
{
    u32::from_be_bytes(*size)
}

// The most bytes that the body behind the gate at this place may have, by its first byte.
fn most(at: u64, byte: u8) -> u32
    ensures { result ≡ most_at at byte }
{
    if at == FIRST && byte == TAG {
        u32::MAX
    } else {
        MOST
    }
}

// The gate at the place is open.
fn is_open<D: Disk>(
    disk: &mut D,
    window: &mut Window,
    before: u64,
    area: Area,
    len: u64,
    at: u64,
) -> Result<bool, OpenFault>
    requires before { before ≤ (D.seen disk.old).faults }
    requires len { IfSome (D.seen disk.old).told (λ s. len ≡ length (part area s)) }
    requires within { at < len }
    requires piece { Shows area (D.seen disk.old).told window.old }
    ensures gate { IfOk result (λ is. IfSome (D.seen disk.old).told (λ s. IsGate (part area s) at is)) }
    ensures piece { OnOk result (Shows area (D.seen disk.old).told window.new) }
    ensures quiet { IsQuiet (D.seen disk.old) (D.seen disk.new) }
    ensures later { (D.seen disk.old).faults ≤ (D.seen disk.new).faults }
    ensures met_none { OnOk result ((D.seen disk.new).faults ≡ (D.seen disk.old).faults) }
    ensures counts { IfErr result (λ f. HasCause f before (D.seen disk.new).faults) }
    ensures shown { IfErr result (λ f. IfSome (D.seen disk.old).told (λ s. IsBrokenAt f (part area s) at)) }
{
    let mut gate = [0; 1];
    window.fill(disk, before, area, len, at, &mut gate)?;
    Ok(gate[0] == 1)
}

// The length of the body behind an open gate, of which all has to stand in the area, and a next gate.
fn read_size<D: Disk>(
    disk: &mut D,
    window: &mut Window,
    before: u64,
    area: Area,
    len: u64,
    at: u64,
) -> Result<u32, OpenFault>
    requires before { before ≤ (D.seen disk.old).faults }
    requires len { IfSome (D.seen disk.old).told (λ s. len ≡ length (part area s)) }
    requires within { at < len }
    requires gate { IfSome (D.seen disk.old).told (λ s. IsGate (part area s) at true) }
    requires piece { Shows area (D.seen disk.old).told window.old }
    ensures size { IfOk result (λ n. IfSome (D.seen disk.old).told (λ s. take 4 (drop (at + 1) (part area s)) ≡ to_be_bytes w32 n)) }
    ensures room { IfOk result (λ n. (1 ≤ n) × (at + 5 + n < len)) }
    ensures no_more { IfOk result (λ n. IfSome (D.seen disk.old).told (λ s. n ≤ most_at at (slice_index (part area s) (at + 5)))) }
    ensures piece { OnOk result (Shows area (D.seen disk.old).told window.new) }
    ensures quiet { IsQuiet (D.seen disk.old) (D.seen disk.new) }
    ensures later { (D.seen disk.old).faults ≤ (D.seen disk.new).faults }
    ensures met_none { OnOk result ((D.seen disk.new).faults ≡ (D.seen disk.old).faults) }
    ensures counts { IfErr result (λ f. HasCause f before (D.seen disk.new).faults) }
    ensures shown { IfErr result (λ f. IfSome (D.seen disk.old).told (λ s. IsBrokenAt f (part area s) at)) }
{
    if len - at <= 5 {
        return Err(OpenFault::Damaged { at });
    }
    let mut prefix = [0; 5];
    window.fill(disk, before, area, len, at + 1, &mut prefix)?;
    let size = number_in(&prefix);
    if size == 0 || size > most(at, prefix[4]) || len - at <= 5 + size as u64 {
        return Err(OpenFault::Damaged { at });
    }
    Ok(size)
}

// Reads the record at a gate, or nothing where the gate is closed.
fn read_record<D: Disk>(
    alloc: Global,
    disk: &mut D,
    window: &mut Window,
    before: u64,
    area: Area,
    len: u64,
    at: u64,
) -> Result<Option<Vec<u8>>, OpenFault>
    requires before { before ≤ (D.seen disk.old).faults }
    requires len { IfSome (D.seen disk.old).told (λ s. len ≡ length (part area s)) }
    requires within { at < len }
    requires piece { Shows area (D.seen disk.old).told window.old }
    ensures bytes { IfOk result (λ found. IfSome (D.seen disk.old).told (λ s. IsRecord (part area s) at found)) }
    ensures room { IfOk result (λ found. IfSome found (λ body. (1 ≤ length body.items) × (at + 5 + length body.items < len))) }
    ensures piece { OnOk result (Shows area (D.seen disk.old).told window.new) }
    ensures quiet { IsQuiet (D.seen disk.old) (D.seen disk.new) }
    ensures later { (D.seen disk.old).faults ≤ (D.seen disk.new).faults }
    ensures met_none { OnOk result ((D.seen disk.new).faults ≡ (D.seen disk.old).faults) }
    ensures counts { IfErr result (λ f. HasCause f before (D.seen disk.new).faults) }
    ensures shown { IfErr result (λ f. IfSome (D.seen disk.old).told (λ s. IsBrokenAt f (part area s) at)) }
{
    if !is_open(disk, window, before, area, len, at)? {
        return Ok(None);
    }
    let size = read_size(disk, window, before, area, len, at)?;
    let Ok(mut body) = vec![in alloc; 0; size as usize] else {
        return Err(OpenFault::Memory);
    };
    window.fill(disk, before, area, len, at + 5, &mut body)?;
    Ok(Some(body))
}

// Reads the records of an area of this version from the first gate to the closed one.
fn read_records<D: Disk>(
    alloc: Global,
    disk: &mut D,
    window: &mut Window,
    before: u64,
    area: Area,
    len: u64,
    version: u8,
) -> Result<Records, OpenFault>
    requires before { before ≤ (D.seen disk.old).faults }
    requires len { IfSome (D.seen disk.old).told (λ s. len ≡ length (part area s)) }
    requires long { 17 < len }
    requires known { IsVersion version }
    requires head { IfSome (D.seen disk.old).told (λ s. take 16 (part area s) ≡ head_of version) }
    requires piece { Shows area (D.seen disk.old).told window.old }
    ensures used { IfOk result (λ r. r.used ≡ size r.bodies) }
    ensures known { IfOk result (λ r. IsVersion r.version) }
    ensures bytes { IfOk result (λ r. IfSome (D.seen disk.old).told (λ s. AtRest r.version (part area s) r.bodies)) }
    ensures quiet { IsQuiet (D.seen disk.old) (D.seen disk.new) }
    ensures later { (D.seen disk.old).faults ≤ (D.seen disk.new).faults }
    ensures met_none { OnOk result ((D.seen disk.new).faults ≡ (D.seen disk.old).faults) }
    ensures counts { IfErr result (λ f. HasCause f before (D.seen disk.new).faults) }
    ensures shown { IfErr result (λ f. IfSome (D.seen disk.old).told (λ s. IsShown f (part area s))) }
{
    let mut bodies = Bodies::new(alloc);
    let mut at = 16;
    while let Some(body) = read_record(alloc, disk, window, before, area, len, at)? {
        at += 5 + body.len() as u64;
        let Ok(()) = bodies.push_vec(body) else {
            return Err(OpenFault::Memory);
        };
    }
    Ok(Records {
        version,
        bodies,
        used: at + 1,
    })
}

// The first place where the two differ.
fn first_other(found: &[u8], wanted: &[u8]) -> Option<usize>
    requires { length found.now ≡ length wanted.now }
    ensures { MatchOption result (found.now ≡ wanted.now) (λ k. (k < length found.now) × (take k found.now ≡ take k wanted.now)
        × (slice_index found.now k ≢ slice_index wanted.now k)) }
{
    for i in 0..found.len() {
        if found[i] != wanted[i] {
            return Some(i);
        }
    }
    None
}

// The version of which these sixteen bytes are the head.
fn version_in(head: &[u8]) -> Option<u8>
    requires { length head.now ≡ 16 }
    ensures { MatchOption result ((version : ℕ) → IsVersion version → head.now ≢ head_of version)
        (λ version. IsVersion version × (head.now ≡ head_of version)) }
{
    let Some(_) = first_other(head, &FIRST_HEAD) else {
        return Some(1);
    };
    let Some(_) = first_other(head, &HEAD) else {
        return Some(2);
    };
    None
}

/// Finds the name and the version in the sixteen bytes at the front of an area that has more than 17. The fault is NotJournal or
/// WrongVersion.
pub fn check_front(front: &[u8; 16]) -> Result<u8, OpenFault>
    ensures known { IfOk result (λ version. IsVersion version) }
    ensures head { IfOk result (λ version. front.now ≡ head_of version) }
    ensures front { IfErr result IsOfFront }
    ensures shown { IfErr result (λ f. (bytes : List ℕ) → 17 < length bytes → take 16 bytes ≡ front.now → IsShown f bytes) }
{
    if let Some(version) = version_in(front) {
        return Ok(version);
    }
    let (found_name, found) = front.split_at(12);
    match first_other(found_name, &NAME) {
        Some(byte) => Err(OpenFault::NotJournal { byte: byte as u64 }),
        None => Err(OpenFault::WrongVersion {
            found: [found[0], found[1], found[2], found[3]],
        }),
    }
}

// Finds the name and the version at the front of an area that is long enough to have them.
fn check_head<D: Disk>(
    disk: &mut D,
    window: &mut Window,
    before: u64,
    area: Area,
    len: u64,
) -> Result<u8, OpenFault>
    requires before { before ≤ (D.seen disk.old).faults }
    requires len { IfSome (D.seen disk.old).told (λ s. len ≡ length (part area s)) }
    requires long { 17 < len }
    requires piece { Shows area (D.seen disk.old).told window.old }
    ensures known { IfOk result (λ version. IsVersion version) }
    ensures head { IfOk result (λ version. IfSome (D.seen disk.old).told (λ s. take 16 (part area s) ≡ head_of version)) }
    ensures piece { OnOk result (Shows area (D.seen disk.old).told window.new) }
    ensures quiet { IsQuiet (D.seen disk.old) (D.seen disk.new) }
    ensures later { (D.seen disk.old).faults ≤ (D.seen disk.new).faults }
    ensures met_none { OnOk result ((D.seen disk.new).faults ≡ (D.seen disk.old).faults) }
    ensures counts { IfErr result (λ f. HasCause f before (D.seen disk.new).faults) }
    ensures shown { IfErr result (λ f. IfSome (D.seen disk.old).told (λ s. IsShown f (part area s))) }
{
    let mut front = [0; 16];
    window.fill(disk, before, area, len, 0, &mut front)?;
    check_front(&front)
}

// Syncs both areas and takes their lengths.
fn settle<D: Disk>(disk: &mut D, before: u64) -> Result<(u64, u64), OpenFault>
    requires before { before ≤ (D.seen disk.old).faults }
    ensures len { IfOk result (λ n. IfSome (D.seen disk.old).told (λ s. (n.0 ≡ length s.a) × (n.1 ≡ length s.b))) }
    ensures settled { OnOk result (IsSettled (D.seen disk.new)) }
    ensures quiet { IsQuiet (D.seen disk.old) (D.seen disk.new) }
    ensures later { (D.seen disk.old).faults ≤ (D.seen disk.new).faults }
    ensures met_none { OnOk result ((D.seen disk.new).faults ≡ (D.seen disk.old).faults) }
    ensures counts { IfErr result (λ f. HasCause f before (D.seen disk.new).faults) }
    ensures shown { IfErr result (λ f. (IsOfContent f → ⊥) × ((bytes : List ℕ) → IsShown f bytes)) }
{
    match synced_lengths(disk) {
        Ok(lengths) => Ok(lengths),
        Err(Failed) => Err(OpenFault::DiskFault {
            before,
            now: disk.faults(),
        }),
    }
}

fn synced_lengths<D: Disk>(disk: &mut D) -> Result<(u64, u64), Failed>
    ensures len { IfOk result (λ n. IfSome (D.seen disk.old).told (λ s. (n.0 ≡ length s.a) × (n.1 ≡ length s.b))) }
    ensures settled { OnOk result (IsSettled (D.seen disk.new)) }
    ensures quiet { IsQuiet (D.seen disk.old) (D.seen disk.new) }
    ensures cause { IsCounted (D.seen disk.old).faults (D.seen disk.new).faults result }
{
    let a = synced_length(disk, Area::A)?;
    let b = synced_length(disk, Area::B)?;
    Ok((a, b))
}

fn synced_length<D: Disk>(disk: &mut D, area: Area) -> Result<u64, Failed>
    ensures len { IfOk result (λ n. IfSome (D.seen disk.old).told (λ s. n ≡ length (part area s))) }
    ensures durable { OnOk result (IfSome (D.seen disk.old).told (λ s. OnlyIn area s (D.seen disk.new).may_leave)) }
    ensures quiet { IsQuiet (D.seen disk.old) (D.seen disk.new) }
    ensures cause { IsCounted (D.seen disk.old).faults (D.seen disk.new).faults result }
{
    disk.sync(area)?;
    disk.length(area)
}

// The number in eight of thirty bytes.
fn number_at_22(front: &[u8; 30]) -> u64
    ensures { result ≡ from_be_bytes w64 (drop 22 front.now) }
{
    let mut number = [0; 8];
    number.copy_from_slice(&front[22..]);
    u64::from_be_bytes(number)
}

// The generation in the first thirty bytes of an area, where it is live.
fn found_in(front: &[u8; 30]) -> Option<u64>
    ensures { (bytes : List ℕ) → take 30 bytes ≡ front.now → IsFound result bytes }
{
    if front[16] != 1 {
        return None;
    }
    if front[21] != TAG {
        return None;
    }
    let (start, _) = front.split_at(16);
    match version_in(start) {
        Some(_) => Some(number_at_22(front)),
        None => None,
    }
}

// The generation of an area, where it is live.
fn look<D: Disk>(disk: &mut D, before: u64, area: Area, len: u64) -> Result<Option<u64>, OpenFault>
    requires before { before ≤ (D.seen disk.old).faults }
    requires len { IfSome (D.seen disk.old).told (λ s. len ≡ length (part area s)) }
    ensures found { IfOk result (λ found. IfSome (D.seen disk.old).told (λ s. IsFound found (part area s))) }
    ensures quiet { IsQuiet (D.seen disk.old) (D.seen disk.new) }
    ensures later { (D.seen disk.old).faults ≤ (D.seen disk.new).faults }
    ensures met_none { OnOk result ((D.seen disk.new).faults ≡ (D.seen disk.old).faults) }
    ensures counts { IfErr result (λ f. HasCause f before (D.seen disk.new).faults) }
    ensures shown { IfErr result (λ f. (IsOfContent f → ⊥) × ((bytes : List ℕ) → IsShown f bytes)) }
{
    if len < 30 {
        return Ok(None);
    }
    let mut front = [0; 30];
    read(disk, before, area, 0, &mut front)?;
    Ok(found_in(&front))
}

// The area that counts, of two that are live, with these generations, or not.
fn choose(a: Option<u64>, b: Option<u64>) -> Area
    ensures { result ≡ choice (is_some a) (is_some b) (found_or_none a) (found_or_none b) }
{
    match (a, b) {
        (Some(of_a), Some(of_b)) => { if of_b < of_a { Area::A } else { Area::B } }
        (None, Some(_)) => Area::B,
        _ => Area::A,
    }
}

// Syncs both areas and finds the one that counts.
fn select<D: Disk>(disk: &mut D, before: u64) -> Result<Selected, OpenFault>
    requires before { before ≤ (D.seen disk.old).faults }
    ensures selected { IfOk result (λ r. IfSome (D.seen disk.old).told (IsSelected r.area r.found r.len)) }
    ensures settled { OnOk result (IsSettled (D.seen disk.new)) }
    ensures quiet { IsQuiet (D.seen disk.old) (D.seen disk.new) }
    ensures later { (D.seen disk.old).faults ≤ (D.seen disk.new).faults }
    ensures met_none { OnOk result ((D.seen disk.new).faults ≡ (D.seen disk.old).faults) }
    ensures counts { IfErr result (λ f. HasCause f before (D.seen disk.new).faults) }
    ensures shown { IfErr result (λ f. (IsOfContent f → ⊥) × ((bytes : List ℕ) → IsShown f bytes)) }
{
    let (len_a, len_b) = settle(disk, before)?;
    let a = look(disk, before, Area::A, len_a)?;
    let b = look(disk, before, Area::B, len_b)?;
    Ok(pick(a, len_a, b, len_b))
}

// One of the two areas, with what was found of it.
fn pick(a: Option<u64>, len_a: u64, b: Option<u64>, len_b: u64) -> Selected
    ensures { (areas : Areas) → IsFound a areas.a → len_a ≡ length areas.a → IsFound b areas.b → len_b ≡ length areas.b
        → IsSelected result.area result.found result.len areas }
{
    match choose(a, b) {
        Area::A => Selected {
            area: Area::A,
            found: a,
            len: len_a,
        },
        Area::B => Selected {
            area: Area::B,
            found: b,
            len: len_b,
        },
    }
}

// Writes the head and a closed gate into an area that has no record yet.
fn begin<D: Disk>(
    alloc: Global,
    disk: &mut D,
    before: u64,
    area: Area,
) -> Result<Records, OpenFault>
    requires before { before ≤ (D.seen disk.old).faults }
    requires short { IfSome (D.seen disk.old).told (λ s. length (part area s) ≤ 17) }
    ensures used { IfOk result (λ r. (r.used ≡ size r.bodies) × (r.bodies ≡ [])) }
    ensures version { IfOk result (λ r. r.version ≡ 2) }
    ensures bytes { OnOk result (IfSome (D.seen disk.new).told (λ s. AtRest 2 (part area s) [])) }
    ensures durable { OnOk result (IfSome (D.seen disk.new).told (λ s. OnlyIn area s (D.seen disk.new).may_leave)) }
    ensures torn { Becomes (D.seen disk.old).told (D.seen disk.new).told (TornIn area 0 17) }
    ensures crash { Follows (TornIn area 0 17) (D.seen disk.old).may_leave (D.seen disk.new).may_leave }
    ensures any_moment { LeavesTorn (D.seen disk.old) (D.seen disk.new) area 0 17 }
    ensures later { (D.seen disk.old).faults ≤ (D.seen disk.new).faults }
    ensures met_none { OnOk result ((D.seen disk.new).faults ≡ (D.seen disk.old).faults) }
    ensures counts { IfErr result (λ f. HasCause f before (D.seen disk.new).faults) }
    ensures shown { IfErr result (λ f. (IsOfContent f → ⊥) × ((bytes : List ℕ) → IsShown f bytes)) }
{
    match write_synced(disk, area, 0, &FRESH) {
        Ok(()) => Ok(Records {
            version: WRITTEN,
            bodies: Bodies::new(alloc),
            used: 17,
        }),
        Err(Failed) => Err(OpenFault::DiskFault {
            before,
            now: disk.faults(),
        }),
    }
}

// Checks an area of more than 17 bytes and reads its records.
fn read_area<D: Disk>(
    alloc: Global,
    disk: &mut D,
    before: u64,
    area: Area,
    len: u64,
) -> Result<Records, OpenFault>
    requires before { before ≤ (D.seen disk.old).faults }
    requires len { IfSome (D.seen disk.old).told (λ s. len ≡ length (part area s)) }
    requires long { 17 < len }
    ensures used { IfOk result (λ r. r.used ≡ size r.bodies) }
    ensures known { IfOk result (λ r. IsVersion r.version) }
    ensures bytes { IfOk result (λ r. IfSome (D.seen disk.old).told (λ s. AtRest r.version (part area s) r.bodies)) }
    ensures quiet { IsQuiet (D.seen disk.old) (D.seen disk.new) }
    ensures later { (D.seen disk.old).faults ≤ (D.seen disk.new).faults }
    ensures met_none { OnOk result ((D.seen disk.new).faults ≡ (D.seen disk.old).faults) }
    ensures counts { IfErr result (λ f. HasCause f before (D.seen disk.new).faults) }
    ensures shown { IfErr result (λ f. IfSome (D.seen disk.old).told (λ s. IsShown f (part area s))) }
{
    let Ok(mut window) = Window::new(alloc, len.min(PIECE) as usize) else {
        return Err(OpenFault::Memory);
    };
    let version = check_head(disk, &mut window, before, area, len)?;
    read_records(alloc, disk, &mut window, before, area, len, version)
}

// Reads the records of the area that was selected, or begins it.
fn take_up<D: Disk>(
    alloc: Global,
    disk: &mut D,
    before: u64,
    area: Area,
    len: u64,
) -> Result<Records, OpenFault>
    requires before { before ≤ (D.seen disk.old).faults }
    requires chosen { IfSome (D.seen disk.old).told (λ s. (chosen s ≡ area) × (len ≡ length (part area s))) }
    requires settled { IsSettled (D.seen disk.old) }
    ensures used { IfOk result (λ r. r.used ≡ size r.bodies) }
    ensures known { IfOk result (λ r. IsVersion r.version) }
    ensures version { IfOk result (λ r. IfSome (D.seen disk.old).told (λ s. r.version ≡ version_now s)) }
    ensures rest { IfOk result (λ r. IfSome (D.seen disk.new).told (IsAtRestIn area r.version None r.bodies)) }
    ensures settled { OnOk result (IsSettled (D.seen disk.new)) }
    ensures stands { IfOk result (λ r. IfSome (D.seen disk.old).told (λ s. Stands r.version (part area s) r.bodies)) }
    ensures shown { IfErr result (λ f. IfSome (D.seen disk.old).told (λ s. IsShown f (part area s))) }
    ensures unwritten { IfErr result (λ f. IsOfContent f → IsQuiet (D.seen disk.old) (D.seen disk.new)) }
    ensures untouched { IfOk result (λ r. (r.bodies ≡ [] → ⊥) → IsQuiet (D.seen disk.old) (D.seen disk.new)) }
    ensures first { IfOk result (λ r. r.version ≡ 1 → IsQuiet (D.seen disk.old) (D.seen disk.new)) }
    ensures long { IfSome (D.seen disk.old).told (λ s. 17 < length (chosen_part s) → IsQuiet (D.seen disk.old) (D.seen disk.new)) }
    ensures goes_on { Changes GoesOn (D.seen disk.old) (D.seen disk.new) }
    ensures spared { SparesOther (D.seen disk.old) (D.seen disk.new) }
    ensures later { (D.seen disk.old).faults ≤ (D.seen disk.new).faults }
    ensures met_none { OnOk result ((D.seen disk.new).faults ≡ (D.seen disk.old).faults) }
    ensures counts { IfErr result (λ f. HasCause f before (D.seen disk.new).faults) }
{
    if len <= 17 {
        begin(alloc, disk, before, area)
    } else {
        read_area(alloc, disk, before, area, len)
    }
}

// All that opening does to the disk.
pub fn load<D: Disk>(alloc: Global, disk: &mut D) -> Result<Loaded, OpenFault>
    ensures used { IfOk result (λ r. r.used ≡ size r.bodies) }
    ensures known { IfOk result (λ r. IsVersion r.version) }
    ensures version { IfOk result (λ r. IfSome (D.seen disk.old).told (λ s. r.version ≡ version_now s)) }
    ensures rest { IfOk result (λ r. IfSome (D.seen disk.new).told (IsAtRestIn r.area r.version None r.bodies)) }
    ensures settled { OnOk result (IsSettled (D.seen disk.new)) }
    ensures found { IfOk result (λ r. IfSome (D.seen disk.old).told (λ s. IsFound r.found (chosen_part s))) }
    ensures stands { IfOk result (λ r. IfSome (D.seen disk.old).told (λ s. Stands r.version (chosen_part s) r.bodies)) }
    ensures shown { IfErr result (λ f. IfSome (D.seen disk.old).told (λ s. IsShown f (chosen_part s))) }
    ensures unwritten { IfErr result (λ f. IsOfContent f → IsQuiet (D.seen disk.old) (D.seen disk.new)) }
    ensures untouched { IfOk result (λ r. (r.bodies ≡ [] → ⊥) → IsQuiet (D.seen disk.old) (D.seen disk.new)) }
    ensures first { IfOk result (λ r. r.version ≡ 1 → IsQuiet (D.seen disk.old) (D.seen disk.new)) }
    ensures long { IfSome (D.seen disk.old).told (λ s. 17 < length (chosen_part s) → IsQuiet (D.seen disk.old) (D.seen disk.new)) }
    ensures goes_on { Changes GoesOn (D.seen disk.old) (D.seen disk.new) }
    ensures spared { SparesOther (D.seen disk.old) (D.seen disk.new) }
    ensures later { (D.seen disk.old).faults ≤ (D.seen disk.new).faults }
    ensures met_none { OnOk result ((D.seen disk.new).faults ≡ (D.seen disk.old).faults) }
    ensures counts { IfErr result (λ f. HasCause f (D.seen disk.old).faults (D.seen disk.new).faults) }
{
    let before = disk.faults();
    let selected = select(disk, before)?;
    let records = take_up(alloc, disk, before, selected.area, selected.len)?;
    Ok(Loaded {
        area: selected.area,
        found: selected.found,
        version: records.version,
        bodies: records.bodies,
        used: records.used,
    })
}
