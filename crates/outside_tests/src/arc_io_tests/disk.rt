// The disk in memory, what a stop within one of its calls leaves, and areas that are files. Calls and answers stand in rows.
use super::{UNREAD, compare_answer, number, numbers, parted, spaced, temporary_path};
use crate::same::same;
use arc_io::{Area, Disk, Failed, FileDisk, Fill, MemDisk, write_synced};
use std::alloc::Global;
use std::fs;
use std::process::Abort;

// Compares what the disk says to each call of a row with the answer behind its `=`. Between two calls stands a `;`.
fn compare<D: Disk>(rt: &impl Abort, disk: &mut D, row: &str) {
    for part in row.split(';') {
        compare_call(rt, disk, part);
    }
}

fn compare_call<D: Disk>(rt: &impl Abort, disk: &mut D, part: &str) {
    let (call, want) = parted(rt, part, '=');
    let mut buf = UNREAD;
    let answer = said(rt, disk, call, &mut buf);
    compare_answer(rt, answer, buf, want, part);
}

// What the disk says to a call: `length AREA`, `sync AREA`, `read AREA AT`, `write AREA AT BYTES`, `add AREA BYTES` or `faults`.
fn said<D: Disk>(rt: &impl Abort, disk: &mut D, call: &str, buf: &mut [u8]) -> Result<u64, Failed> {
    let (word, rest) = spaced(call);
    let (name, rest) = spaced(rest);
    let area = if name == "B" { Area::B } else { Area::A };
    match word {
        "faults" => Ok(disk.faults()),
        "length" => disk.length(area),
        "sync" => disk.sync(area).and(Ok(0)),
        "read" => read(disk, area, number(rt, rest), buf),
        "write" => write(rt, disk, area, rest),
        _ => add(disk, area, rest.as_bytes()),
    }
}

// How many bytes were read.
fn read<D: Disk>(disk: &mut D, area: Area, at: u64, buf: &mut [u8]) -> Result<u64, Failed> {
    match disk.read_at(area, at, buf) {
        Ok(count) => Ok(count as u64),
        Err(Failed) => Err(Failed),
    }
}

// Asks first how long the area is, and writes nothing behind its end. How many bytes were written.
fn write<D: Disk>(rt: &impl Abort, disk: &mut D, area: Area, rest: &str) -> Result<u64, Failed> {
    let (at, bytes) = parted(rt, rest, ' ');
    let (at, bytes) = (number(rt, at), bytes.as_bytes());
    match disk.length(area) {
        Ok(end) if at <= end && at < 1 << 62 && bytes.len() < 1 << 62 => {
            disk.write_at(area, at, bytes).and(Ok(bytes.len() as u64))
        }
        _ => Err(Failed),
    }
}

// Writes behind the end and syncs. How many bytes were written.
fn add<D: Disk>(disk: &mut D, area: Area, bytes: &[u8]) -> Result<u64, Failed> {
    match disk.length(area) {
        Ok(end) if end < 1 << 62 && bytes.len() < 1 << 62 => {
            write_synced(disk, area, end, bytes).and(Ok(bytes.len() as u64))
        }
        _ => Err(Failed),
    }
}

// Each row has the numbers of the calls that fail, the calls, and what area A has at the end. A write is a second call, behind one that
// asks for the length.
const FAILING: &str = "\
|write A 0 abcd=4;sync A=0;write A 3 XYZ=3;sync A=0;faults=0|abcXYZ
5|write A 0 abcd=4;sync A=0;write A 3 XYZ=failed;sync A=0;faults=1|abcd
6 3|write A 0 abcd=4;sync A=failed;write A 3 XYZ=3;sync A=failed;faults=2|abcXYZ
0 7|write A 0 abcd=4;sync A=0;write A 3 XYZ=3;sync A=0;faults=0|abcXYZ
2|add A abcd=failed;add A abcd=4;add B xy=2;length A=4;length B=2;faults=1|abcd
4|write A 0 abcd=4;read A 0=3 abc;read A 1=failed;read A 2=2 cd-;read A 4=0 ---;read B 0=0 ---;faults=1|abcd
|write A 0 abcd=4;read A 18446744073709551615=0 ---;write A 4 =0;length A=4|abcd";

#[test]
fn a_failing_call_changes_nothing(rt: HostRuntime) {
    for row in FAILING.lines() {
        compare_failing(&rt, rt.alloc(), row);
    }
}

fn compare_failing(rt: &impl Abort, alloc: Global, row: &str) {
    let (failing, row) = parted(rt, row, '|');
    let (calls, want) = parted(rt, row, '|');
    let mut disk = MemDisk::new(alloc, numbers(rt, alloc, failing));
    compare(rt, &mut disk, calls);
    same(rt, disk.bytes(Area::A), want.as_bytes(), row);
}

// The call within which the disk stops, how what was not synced is filled, and what both areas then have. The disk began with the
// synced bytes `old` in area B; its calls are those of the first row above, and a write to B that was not synced.
const STOPS: &str = "\
1 old=,old
2 old=,old
2 new=abcd,old
2 torn=....,old
3 old=,old
3 new=abcd,old
3 torn=....,old
5 old=abcd,old
5 new=abcXYZ,old
5 torn=abc...,old
6 old=abcd,old
6 torn=abc...,old
8 old=abcXYZ,old
8 new=abcXYZ,oldest
8 torn=abcXYZ,old...";

#[test]
fn a_stop_leaves_what_was_synced_and_the_rest_by_its_fill(rt: HostRuntime) {
    let old = b"old".to_vec(rt.alloc()).expect(&rt, "memory");
    let (none, no_failing) = (Vec::new(rt.alloc()), Vec::new(rt.alloc()));
    let mut disk = MemDisk::of(rt.alloc(), none, old, no_failing).expect(&rt, "memory");
    let calls = "write A 0 abcd=4;sync A=0;write A 3 XYZ=3;sync A=0;write B 3 est=3";
    compare(&rt, &mut disk, calls);
    for row in STOPS.lines() {
        compare_stop(&rt, rt.alloc(), &disk, row);
    }
}

fn compare_stop(rt: &impl Abort, alloc: Global, disk: &MemDisk, row: &str) {
    let (stop, want) = parted(rt, row, '=');
    let (a, b) = parted(rt, want, ',');
    let (call, fill) = parted(rt, stop, ' ');
    let left = left_by(rt, alloc, disk, number(rt, call), fill_of(fill));
    let areas = (left.bytes(Area::A), left.bytes(Area::B));
    same(rt, areas, (a.as_bytes(), b.as_bytes()), row);
}

// What a stop within the call leaves.
fn left_by(rt: &impl Abort, alloc: Global, disk: &MemDisk, call: u64, fill: Fill) -> MemDisk {
    if call == 0 || call > disk.calls() {
        panic!(rt; "no such call");
    }
    disk.stopped(alloc, call, fill).expect(rt, "memory")
}

fn fill_of(word: &str) -> Fill {
    match word {
        "old" => Fill::Old,
        "new" => Fill::New,
        _ => Fill::Torn(b'.'),
    }
}

// A new folder among the temporary ones.
fn new_folder(rt: &impl Abort, host: HostRuntime, name: &str) -> String {
    let folder = temporary_path(rt, host, name);
    fs::create_dir(&host, folder.as_str()).expect(rt, "a new folder");
    folder
}

fn remove(rt: &impl Abort, host: HostRuntime, folder: &str) {
    fs::remove_dir_all(&host, folder).expect(rt, "a folder to be removed");
}

fn path_of(rt: &impl Abort, host: HostRuntime, folder: &str, name: &str) -> String {
    format!(in host.alloc(); "{folder}/{name}").expect(rt, "memory")
}

fn disk_of(rt: &impl Abort, host: HostRuntime, folder: &str) -> FileDisk<HostRuntime> {
    FileDisk::new(host, host.alloc(), folder).expect(rt, "memory")
}

// Compares the calls of a row on a disk of the folder, which is let go then.
fn compare_at(rt: &impl Abort, host: HostRuntime, folder: &str, row: &str) {
    let mut disk = disk_of(rt, host, folder);
    compare(rt, &mut disk, row);
}

// Compares what the file of the folder has. `-` stands for no file.
fn compare_file(rt: &impl Abort, host: HostRuntime, folder: &str, row: &str) {
    let (name, want) = parted(rt, row, '=');
    let path = path_of(rt, host, folder, name);
    same(rt, held(rt, host, &path).as_slice(), want.as_bytes(), row);
}

fn held(rt: &impl Abort, host: HostRuntime, path: &str) -> Vec<u8> {
    if fs::exists(&host, path).expect(rt, "a folder") {
        fs::read(&host, path).expect(rt, "a file")
    } else {
        b"-".to_vec(host.alloc()).expect(rt, "memory")
    }
}

// Makes a folder in the folder.
fn make_folder(rt: &impl Abort, host: HostRuntime, folder: &str, name: &str) {
    let path = path_of(rt, host, folder, name);
    fs::create_dir(&host, path.as_str()).expect(rt, "a new folder");
}

// One row: `disk` and calls on a disk of the folder, `file` and what a file has, or `folder` and the name of a folder to be made.
fn compare_step(rt: &impl Abort, host: HostRuntime, folder: &str, row: &str) {
    let (word, rest) = parted(rt, row, ' ');
    match word {
        "disk" => compare_at(rt, host, folder, rest),
        "file" => compare_file(rt, host, folder, rest),
        _ => make_folder(rt, host, folder, rest),
    }
}

// Compares the rows in a new folder, and removes it.
fn compare_in(rt: &impl Abort, host: HostRuntime, name: &str, rows: &str) {
    let folder = new_folder(rt, host, name);
    for row in rows.lines() {
        compare_step(rt, host, &folder, row);
    }
    remove(rt, host, &folder);
}

const AREAS: &str = "\
disk sync A=0;length A=0;read A 0=0 ---
file journal.a=-
disk write A 0 abcd=4;sync A=0;write A 3 XYZ=3;sync A=0;length A=6;read A 4=2 YZ-;faults=0
file journal.a=abcXYZ
file journal.b=-";

#[test]
fn areas_are_files_of_a_folder(rt: HostRuntime) {
    compare_in(&rt, rt, "areas", AREAS);
}

const OTHERS: &str = "\
folder journal.a
disk length A=failed;length B=0;faults=1";

#[test]
fn only_what_is_a_file_is_used(rt: HostRuntime) {
    compare_in(&rt, rt, "others", OTHERS);
    // There is no such folder.
    compare_at(&rt, rt, "/arc_io/none", "length A=0;write A 0 x=failed");
}

#[test]
fn a_file_that_another_has_fails(rt: HostRuntime) {
    let folder = new_folder(&rt, rt, "locks");
    let mut disk = disk_of(&rt, rt, &folder);
    compare(&rt, &mut disk, "write A 0 abcd=4");
    compare_at(&rt, rt, &folder, "sync A=failed;length A=failed;faults=2");
    drop(disk);
    compare_at(&rt, rt, &folder, "length A=4;faults=0");
    remove(&rt, rt, &folder);
}

// A file that has come since the disk looked for it is another's.
#[test]
fn a_file_that_came_later_is_not_used(rt: HostRuntime) {
    let folder = new_folder(&rt, rt, "later");
    let mut disk = disk_of(&rt, rt, &folder);
    compare(&rt, &mut disk, "length B=0");
    make_file(&rt, rt, &folder);
    let answer = disk.write_at(Area::B, 0, b"mine");
    same(&rt, answer, Err(Failed), "a write");
    compare_file(&rt, rt, &folder, "journal.b=other");
    remove(&rt, rt, &folder);
}

fn make_file(rt: &impl Abort, host: HostRuntime, folder: &str) {
    let path = path_of(rt, host, folder, "journal.b");
    fs::write(&host, path.as_str(), b"other".as_slice()).expect(rt, "a new file");
}
