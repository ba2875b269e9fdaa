// A store over a disk that nothing holds together: whatever it reads and whatever lengths it says, opening ends in a named answer that is
// none of the disk's, and no call finds the disk down.
ghost use Rattle.std.specs.Prelude.{◌≡◌, ◌<◌, ◌⊎◌, ℕ, IfOk, IfErr, OnOk};
ghost use Rattle.centre_core.specs.Setting.{IsSetting};
ghost use Rattle.disk_journal.specs.Faults.{IsOfContent};

use super::opening::append;
use super::summed::area_in_words;
use crate::centre_core_tests::decoding::bytes_of;
use crate::same::{holds, same};
use arc_data::{Blob, Reply};
use arc_io::WildDisk;
use centre_core::{Done, Setup, Stop};
use centre_store::Store;
use disk_journal::{OpenFault, SHIPPED};
use std::alloc::Global;
use std::process::Abort;
use test_fixtures::messages::{account, burglary};
use test_fixtures::moments::BEGIN;

// Opens a disk of any content. The disk itself is never at fault.
fn opened(alloc: Global, disk: WildDisk) -> Result<Store<WildDisk>, OpenFault>
    ensures at_open { IfOk result (λ store. store.at_open ≡ 0) }
    ensures named { IfErr result (λ fault. IsOfContent fault ⊎ (fault ≡ OpenFault.Memory)) }
{
    match Store::open(alloc, disk, SHIPPED) {
        Ok(store) => Ok(store),
        Err(refused) => {
            let fault = refused.fault;
            drop(refused);
            Err(fault)
        }
    }
}

// Begins a run over it, or answers that there is no memory for its setup. The disk is never down.
fn begun(alloc: Global, store: &mut Store<WildDisk>) -> Result<(), Stop>
    requires { store.old.at_open ≡ 0 }
    ensures setting { OnOk result (IsSetting store.new.state.sum.text) }
    ensures at_open { store.new.at_open ≡ 0 }
    ensures up { IfErr result (λ stop. (at_open now : ℕ) → stop ≡ Stop.Down at_open now → ⊥) }
{
    match Setup::read(alloc, b"account 1234\n") {
        Ok(setup) => store.begin(alloc, setup, BEGIN),
        Err(_) => Err(Stop::Memory),
    }
}

// Makes a checkpoint, or answers that there is no memory for it. The disk is never down.
fn summed_up(alloc: Global, store: &mut Store<WildDisk>) -> Result<(), Stop>
    requires setting { IsSetting store.old.state.sum.text }
    requires at_open { store.old.at_open ≡ 0 }
    ensures setting { IsSetting store.new.state.sum.text }
    ensures at_open { store.new.at_open ≡ 0 }
    ensures up { IfErr result (λ stop. (at_open now : ℕ) → stop ≡ Stop.Down at_open now → ⊥) }
{
    store.checkpoint(alloc)
}

// Submits an alarm, or answers that there is no memory for it. The disk is never down.
fn submitted(alloc: Global, store: &mut Store<WildDisk>) -> Result<Done, Stop>
    requires setting { IsSetting store.old.state.sum.text }
    requires at_open { store.old.at_open ≡ 0 }
    ensures up { IfErr result (λ stop. (at_open now : ℕ) → stop ≡ Stop.Down at_open now → ⊥) }
{
    match burglary(alloc, account(), 1) {
        Ok(alarm) => store.submit(alloc, 7, alarm, BEGIN),
        Err(_) => Err(Stop::Memory),
    }
}

// What a store answers to a run that begins over it, a checkpoint, and an alarm.
fn worked(alloc: Global, store: &mut Store<WildDisk>) -> &'static str
    requires { store.old.at_open ≡ 0 }
{
    let Ok(()) = begun(alloc, store) else {
        return "not begun";
    };
    let Ok(()) = summed_up(alloc, store) else {
        return "not summed up";
    };
    match submitted(alloc, store) {
        Ok(done) => word_of(&done.reply),
        Err(_) => "stopped",
    }
}

fn word_of(reply: &Reply) -> &'static str {
    match reply {
        Reply::Taken => "taken",
        Reply::Repeat { .. } => "repeat",
        _ => "another reply",
    }
}

// What a disk says: how many entries are recorded and what is answered then, or why it was refused.
fn told(rt: &impl Abort, alloc: Global, disk: WildDisk) -> String {
    match opened(alloc, disk) {
        Ok(store) => {
            let mut store = store;
            let count = store.centre().recorded();
            let word = worked(alloc, &mut store);
            drop(store);
            format!(in alloc; "{count} {word}").expect(rt, "memory")
        }
        Err(fault) => format!(in alloc; "{fault:?}").expect(rt, "memory"),
    }
}

// A disk of which each read gives these bytes from their front, whatever is asked for, and which says this length of both areas.
fn wild_disk(rt: &impl Abort, alloc: Global, bytes: &[u8], length: u64) -> WildDisk {
    let reads = [bytes, bytes, bytes, bytes, bytes, bytes];
    wild_disk_of(rt, alloc, &reads, &[length, length])
}

// A disk whose reads give these bytes one after the other, and which says these lengths.
fn wild_disk_of(rt: &impl Abort, alloc: Global, bytes: &[&[u8]], lengths: &[u64]) -> WildDisk {
    let mut reads = Vec::new(alloc);
    for bytes in bytes {
        let copy = Blob::of(alloc, bytes).expect(rt, "memory");
        reads.push(copy).expect(rt, "memory");
    }
    let lengths = lengths.to_vec(alloc).expect(rt, "memory");
    WildDisk::new(reads, lengths)
}

// An area in words, the length that the disk says of both, and what it tells.
const DISKS: &str = "\
asm;105;3 repeat
as;62;2 taken
asm;0;0 taken
asm;17;0 taken
asm;18446744073709551615;3 repeat
asm;104;Damaged { at: 61 }
asm;61;Damaged { at: 47 }
asm;47;Damaged { at: 16 }
asmm;148;Damaged { at: 104 }
x;32;Damaged { at: 16 }
1:;178;3 repeat
1:;18446744073709551615;3 repeat
1:s;192;4 repeat
2*:;404;9 repeat
1:;177;Damaged { at: 16 }
1:;30;Damaged { at: 16 }
1:;29;Damaged { at: 16 }
1:;17;0 taken
1:;0;0 taken
1:s;191;Damaged { at: 177 }
1:s;178;Damaged { at: 177 }
1:x;194;Damaged { at: 177 }
1:m;221;Damaged { at: 177 }
6:;178;Damaged { at: 16 }
0:;178;Damaged { at: 16 }
~asv;100;3 repeat
~as;62;2 taken
~asv;17;0 taken
~asv;18446744073709551615;3 repeat
~asv;99;Damaged { at: 61 }
~asvv;138;Damaged { at: 99 }
~asm;105;Damaged { at: 61 }
~1:;173;3 repeat
~1:;18446744073709551615;3 repeat
~1:s;187;4 repeat
~2*:;393;9 repeat
~1:;172;Damaged { at: 16 }
~5:;173;Damaged { at: 16 }";

#[test]
fn a_length_is_believed(rt: HostRuntime) {
    for row in DISKS.lines() {
        compare_row(&rt, rt.alloc(), row);
    }
}

fn compare_row(rt: &impl Abort, alloc: Global, row: &str) {
    let (letters, rest) = row.split_once(';').expect(rt, "a row");
    let (length, want) = rest.split_once(';').expect(rt, "a row");
    let length = length.parse().expect(rt, "a length");
    let area = area_in_words(rt, alloc, letters);
    compare(rt, alloc, (&area, length), want, row);
}

fn compare(rt: &impl Abort, alloc: Global, disk: (&[u8], u64), want: &str, what: &str) {
    let (bytes, length) = disk;
    let told = told(rt, alloc, wild_disk(rt, alloc, bytes, length));
    same(rt, told.as_str(), want, what);
}

// An area in words, the length that the disk says of both, how many bytes of its front each read gives, from this number to that, and what it
// tells. A byte below the length that a read does not give counts as 00: a gate there is closed, a length is short or nothing, and a body ends
// in zeros, so that it spells another event, or none.
const FRONTS: &str = "\
asm;105;12 12;WrongVersion { found: [0, 0, 0, 0] }
asm;105;13 13;WrongVersion { found: [48, 0, 0, 0] }
asm;105;14 14;WrongVersion { found: [48, 48, 0, 0] }
asm;105;15 15;WrongVersion { found: [48, 48, 48, 0] }
asm;105;16 16;0 taken
asm;105;17 46;Damaged { at: 16 }
asm;105;47 47;1 taken
asm;105;48 59;Damaged { at: 47 }
asm;105;60 61;2 taken
asm;105;62 103;Damaged { at: 61 }
asm;105;104 105;3 repeat
asm;62;60 61;2 taken
asm;62;62 62;Damaged { at: 61 }
asm;104;60 61;2 taken
asm;104;62 104;Damaged { at: 61 }
asm;5000;16 16;0 taken
asm;5000;17 46;Damaged { at: 16 }
asm;5000;47 47;1 taken
asm;5000;60 61;2 taken
asm;5000;104 105;3 repeat
1:;178;12 12;WrongVersion { found: [0, 0, 0, 0] }
1:;178;16 16;0 taken
1:;178;17 175;Damaged { at: 16 }
1:;178;176 178;3 repeat
1:;5000;16 16;0 taken
1:;5000;17 175;Damaged { at: 16 }
1:;5000;176 178;3 repeat
1:s;192;176 177;3 repeat
1:s;192;178 189;Damaged { at: 177 }
1:s;192;190 192;4 repeat
~asv;100;12 12;WrongVersion { found: [0, 0, 0, 0] }
~asv;100;15 15;WrongVersion { found: [48, 48, 48, 0] }
~asv;100;16 16;0 taken
~asv;100;17 46;Damaged { at: 16 }
~asv;100;60 61;2 taken
~asv;100;62 98;Damaged { at: 61 }
~asv;100;99 100;3 repeat
~1:;173;17 170;Damaged { at: 16 }
~1:;173;171 173;3 repeat";

#[test]
fn a_byte_that_no_read_gives_is_zero(rt: HostRuntime) {
    for row in FRONTS.lines() {
        compare_fronts(&rt, rt.alloc(), row);
    }
}

fn compare_fronts(rt: &impl Abort, alloc: Global, row: &str) {
    let (letters, rest) = row.split_once(';').expect(rt, "a row");
    let (length, rest) = rest.split_once(';').expect(rt, "a row");
    let (places, want) = rest.split_once(';').expect(rt, "a row");
    let (first, last) = places.split_once(' ').expect(rt, "two places");
    let length = length.parse().expect(rt, "a length");
    let first = first.parse::<usize>().expect(rt, "a place");
    let last = last.parse::<usize>().expect(rt, "a place");
    let area = area_in_words(rt, alloc, letters);
    for count in first..=last {
        compare_front(rt, alloc, (&area, count), length, want);
    }
}

// Of an area so many bytes are given.
fn compare_front(rt: &impl Abort, alloc: Global, front: (&[u8], usize), length: u64, want: &str) {
    let (area, count) = front;
    let given = area.get(..count).expect(rt, "a front");
    let told = told(rt, alloc, wild_disk(rt, alloc, given, length));
    same(rt, (count, told.as_str()), (count, want), "a front");
}

// Of the name's twelve bytes the first that no read gives is another.
#[test]
fn a_name_that_no_read_gives_is_another(rt: HostRuntime) {
    let alloc = rt.alloc();
    let area = area_in_words(&rt, alloc, "1:");
    for count in 0..12usize {
        let want = format!(in alloc; "NotJournal {{ byte: {count} }}").expect(&rt, "memory");
        compare_front(&rt, alloc, (&area, count), 178, want.as_str());
    }
}

// What the disk says of the length of the other area when a summary is put there, and what it then gives of the first gate there.
const GROWING: &str = "\
0;
16;01
17;
17;00
17;01
5000;
5000;ff
18446744073709551615;01";

// An area's length is another at each call, and the gate that is asked for may not be given: no call finds the disk down.
#[test]
fn a_length_may_grow(rt: HostRuntime) {
    for row in GROWING.lines() {
        compare_growing(&rt, rt.alloc(), row);
    }
}

fn compare_growing(rt: &impl Abort, alloc: Global, row: &str) {
    let (length, digits) = row.split_once(';').expect(rt, "a row");
    let length = length.parse().expect(rt, "a length");
    let gate = bytes_of(rt, alloc, digits);
    let area = area_in_words(rt, alloc, "asm");
    let area = area.as_slice();
    let reads = [area, area, area, gate.as_slice()];
    let told = told(
        rt,
        alloc,
        wild_disk_of(rt, alloc, &reads, &[105, 30, length]),
    );
    same(rt, told.as_str(), "3 repeat", row);
}

// A number by chance, from the one before it: the step of Knuth's MMIX.
fn stepped(number: u64) -> u64 {
    number
        .wrapping_mul(6_364_136_223_846_793_005)
        .wrapping_add(1_442_695_040_888_963_407)
}

// A number below this one, by chance; 0 where it is 0.
fn below(chance: &mut u64, limit: u64) -> u64
    ensures { 0 < limit → result < limit }
{
    *chance = stepped(*chance);
    if limit == 0 {
        return 0;
    }
    (*chance >> 32u32) % limit
}

// Records that go on from one another, alone and behind summaries, and some that don't.
const WORDS: [&str; 20] = [
    "asm", "osmc", "as", "asmm", "", "osmn", "asx", "ase", "1:", "1:s", "2*:", "2:s", "1*:", "1:x",
    "6:", "3:sm", "~asv", "~osvc", "~1:s", "~2*:",
];

// An area by chance: records or noise, of whose bytes some are changed, cut behind some byte, and joined with others.
fn area_by_chance(rt: &impl Abort, alloc: Global, chance: &mut u64) -> Vec<u8> {
    let mut area = part_by_chance(rt, alloc, chance);
    change_some(chance, &mut area);
    let count = below(chance, (area.len() as u64).saturating_mul(2));
    area.truncate(count as usize);
    if below(chance, 4) == 0 {
        let part = part_by_chance(rt, alloc, chance);
        append(rt, &mut area, &part);
    }
    area
}

// What stands before noise: nothing, the head, an open gate behind it, or that and the front of a short length.
const BEFORE_NOISE: [&[u8]; 4] = [
    b"",
    b"ARC JOURNAL 0001",
    b"ARC JOURNAL 0002\x01",
    b"ARC JOURNAL 0002\x01\0\0\0",
];

// Bytes by chance, of which three of four stand behind a head.
fn noise_by_chance(rt: &impl Abort, alloc: Global, chance: &mut u64) -> Vec<u8> {
    let place = below(chance, 4) as usize;
    let front = BEFORE_NOISE.get(place).copied().unwrap_or(b"");
    let mut noise = Vec::new(alloc);
    append(rt, &mut noise, front);
    for _ in 0..below(chance, 200) {
        let byte = below(chance, 256) as u8;
        noise.push(byte).expect(rt, "memory");
    }
    noise
}

fn part_by_chance(rt: &impl Abort, alloc: Global, chance: &mut u64) -> Vec<u8> {
    if below(chance, 4) == 0 {
        return noise_by_chance(rt, alloc, chance);
    }
    let place = below(chance, 20) as usize;
    let words = WORDS.get(place).copied().unwrap_or("asm");
    area_in_words(rt, alloc, words)
}

// Changes none, one, or a few bytes.
fn change_some(chance: &mut u64, area: &mut [u8]) {
    for _ in 0..below(chance, 4) {
        let place = below(chance, area.len() as u64) as usize;
        let value = below(chance, 256) as u8;
        if let Some(byte) = area.get_mut(place) {
            *byte = value;
        }
    }
}

// A kind of answer, by its first letter: a count, NotJournal, WrongVersion or Damaged; 4 is none of these.
fn kind_of(told: &str) -> usize {
    match told.as_bytes().first() {
        Some(b'0'..=b'9') => 0,
        Some(b'N') => 1,
        Some(b'W') => 2,
        Some(b'D') => 3,
        _ => 4,
    }
}

// Counts an answer of a kind.
fn count_kind(counts: &mut [u64; 5], kind: usize) {
    if let Some(count) = counts.get_mut(kind) {
        *count = count.saturating_add(1);
    }
}

// Each kind came, and none besides.
fn compare_kinds(rt: &impl Abort, counts: [u64; 5]) {
    let [opened, not_journal, wrong_version, damaged, other] = counts;
    holds(rt, opened > 0, "opened");
    holds(rt, not_journal > 0, "no journal");
    holds(rt, wrong_version > 0, "another version");
    holds(rt, damaged > 0, "damaged");
    same(rt, other, 0, "none of these");
}

// Each of a thousand disks by chance ends in a named answer, and each of these comes. The length is mostly that of the bytes.
#[test]
fn a_thousand_disks_by_chance(rt: HostRuntime) {
    let mut chance = 39;
    let mut counts = [0u64; 5];
    for _ in 0..1000u16 {
        let kind = kind_by_chance(&rt, rt.alloc(), &mut chance);
        count_kind(&mut counts, kind);
    }
    compare_kinds(&rt, counts);
}

fn kind_by_chance(rt: &impl Abort, alloc: Global, chance: &mut u64) -> usize {
    let area = area_by_chance(rt, alloc, chance);
    let length = match below(chance, 4) {
        0 => below(chance, 300),
        _ => area.len() as u64,
    };
    let told = told(rt, alloc, wild_disk(rt, alloc, &area, length));
    kind_of(&told)
}

// Disks whose reads give two areas by chance, and then either of them whole, whichever counts.
#[test]
fn a_thousand_pairs_of_areas_by_chance(rt: HostRuntime) {
    let mut chance = 40;
    let mut counts = [0u64; 5];
    for _ in 0..1000u16 {
        let kind = kind_of_pair(&rt, rt.alloc(), &mut chance);
        count_kind(&mut counts, kind);
    }
    compare_kinds(&rt, counts);
}

fn kind_of_pair(rt: &impl Abort, alloc: Global, chance: &mut u64) -> usize {
    let a = area_by_chance(rt, alloc, chance);
    let b = area_by_chance(rt, alloc, chance);
    let lengths = [a.len() as u64, b.len() as u64];
    let (first, second) = if below(chance, 2) == 0 {
        (&a, &b)
    } else {
        (&b, &a)
    };
    let reads = [
        a.as_slice(),
        b.as_slice(),
        first.as_slice(),
        second.as_slice(),
    ];
    let told = told(rt, alloc, wild_disk_of(rt, alloc, &reads, &lengths));
    kind_of(&told)
}
