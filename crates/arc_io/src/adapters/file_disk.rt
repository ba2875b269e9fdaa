// The areas as two files. What is trusted here: that the system does with them what `Disk` says.
ghost use Rattle.std.specs.Prelude.{◌≡◌, ◌≤◌, MatchResult, Ok, IsErr};
ghost use Rattle.std.specs.Io.{ReadsAtMost};
ghost use Rattle.arc_io.specs.Causes.{IsCounted};

use crate::{Area, Disk, Failed};
use arc_data::Memory;
use std::alloc::Global;
use std::fs::{File, OpenOptions};
use std::io::{self, ErrorKind};
use std::os::fd::AsRawFd;
use std::os::unix::fs::{FileExt, OpenOptionsExt};
use std::rt::Files;

/// Two files of a folder, `journal.a` and `journal.b`.
///
/// A file that is missing is an empty area, and the first write makes it. A file is opened and locked at
/// its first use, and kept until the disk is let go: a call on a file that another process, or another
/// disk of this one, has locked fails. So do calls on a file that can't be read or written, and on what is no file.
/// The cause of the first call that fails is said on standard error. A file that is made is its user's alone.
pub struct FileDisk<R: Files<File = File> + Eprint> {
    rt: R,
    folder: String,
    a: AreaFile,
    b: AreaFile,
    faults: u64,
}

// Written out: one call wherever one is dropped, where a derived drop is spelled out at each exit.
impl<R: Files<File = File> + Eprint + Drop> Drop for FileDisk<R> {
    fn drop(self) {
        let FileDisk {
            rt,
            folder,
            a,
            b,
            faults: _,
        } = self;
        drop(rt);
        drop(folder);
        drop(a);
        drop(b);
    }
}

impl<R: Files<File = File> + Eprint + Drop> FileDisk<R> {
    /// The disk of this folder. Nothing is opened yet.
    pub fn new(rt: R, alloc: Global, folder: &str) -> Result<FileDisk<R>, Memory> {
        let (Ok(of_folder), Ok(a), Ok(b)) = (
            format!(in alloc; "{folder}"),
            format!(in alloc; "{folder}/journal.a"),
            format!(in alloc; "{folder}/journal.b"),
        ) else {
            return Err(Memory);
        };
        Ok(FileDisk {
            rt,
            folder: of_folder,
            a: AreaFile::new(a),
            b: AreaFile::new(b),
            faults: 0,
        })
    }
}

impl<R: Files<File = File> + Eprint> Disk for FileDisk<R> {
    ghost use Rattle.arc_io.specs.Disks.{silent_seen};

    ghost seen = { λ d. silent_seen d.faults };

    ghost silent = { λ _ _ _ none. none };

    ghost counts_now = { λ _ _ _ _ none. none };

    ghost only_now = { λ _ _ none. none };

    fn length(&mut self, area: Area) -> Result<u64, Failed> {
        let answer = match area {
            Area::A => self.a.length(&self.rt),
            Area::B => self.b.length(&self.rt),
        };
        counted(&self.rt, area, &mut self.faults, answer)
    }

    fn read_at(&mut self, area: Area, at: u64, buf: &mut [u8]) -> Result<usize, Failed> {
        let answer = match area {
            Area::A => self.a.read_at(&self.rt, at, buf),
            Area::B => self.b.read_at(&self.rt, at, buf),
        };
        counted(&self.rt, area, &mut self.faults, answer)
    }

    fn write_at(&mut self, area: Area, at: u64, bytes: &[u8]) -> Result<(), Failed> {
        let answer = match area {
            Area::A => self.a.write_at(&self.rt, at, bytes),
            Area::B => self.b.write_at(&self.rt, at, bytes),
        };
        counted(&self.rt, area, &mut self.faults, answer)
    }

    fn sync(&mut self, area: Area) -> Result<(), Failed> {
        let folder = self.folder.as_str();
        let answer = match area {
            Area::A => self.a.sync(&self.rt, folder),
            Area::B => self.b.sync(&self.rt, folder),
        };
        counted(&self.rt, area, &mut self.faults, answer)
    }

    fn faults(&self) -> u64 {
        self.faults
    }
}

// An error is a fault. The first one is told.
fn counted<R: Eprint, T: Drop>(
    rt: &R,
    area: Area,
    faults: &mut u64,
    answer: io::Result<T>,
) -> Result<T, Failed>
    ensures same { MatchResult answer (λ x. result ≡ Ok x) (λ _. IsErr result) }
    ensures cause { IsCounted faults.old faults.new result }
{
    match answer {
        Ok(found) => Ok(found),
        Err(error) => {
            if *faults == 0 {
                tell(rt, area, error);
            }
            *faults = faults.saturating_add(1);
            Err(Failed)
        }
    }
}

// Says on standard error why a call on an area failed: another run, no permission, or an error of the disk.
fn tell<R: Eprint>(rt: &R, area: Area, error: io::Error) {
    let name = match area {
        Area::A => "journal.a",
        Area::B => "journal.b",
    };
    let _ = match error.kind() {
        ErrorKind::WouldBlock | ErrorKind::AlreadyExists => {
            eprintln!(rt; "{name}: another run works in this folder")
        }
        ErrorKind::PermissionDenied => eprintln!(rt; "{name}: not permitted: {error}"),
        _ => eprintln!(rt; "{name}: the disk failed: {error}"),
    };
}

// The file of an area.
struct AreaFile {
    path: String,

    // The file, opened and locked.
    file: Option<File>,

    // It was looked for. Where there was none, only a new one is written to.
    is_sought: bool,

    // Its name and its size are on the disk.
    is_settled: bool,

    // A sync failed: the system may have dropped what it was to put on the disk.
    is_lost: bool,
}

// Written out: one call wherever one is dropped, where a derived drop is spelled out at each exit.
impl Drop for AreaFile {
    fn drop(self) {
        let AreaFile {
            path,
            file,
            is_sought: _,
            is_settled: _,
            is_lost: _,
        } = self;
        drop(path);
        drop(file);
    }
}

impl AreaFile {
    fn new(path: String) -> AreaFile {
        AreaFile {
            path,
            file: None,
            is_sought: false,
            is_settled: false,
            is_lost: false,
        }
    }

    fn length<R: Files<File = File>>(&mut self, rt: &R) -> io::Result<u64> {
        self.look(rt)?;
        match &self.file {
            Some(file) => Ok(file.metadata()?.len()),
            None => Ok(0),
        }
    }

    fn read_at<R: Files<File = File>>(
        &mut self,
        rt: &R,
        at: u64,
        buf: &mut [u8],
    ) -> io::Result<usize>
        ensures { ReadsAtMost result buf.new }
    {
        self.look(rt)?;
        let Some(file) = &self.file else {
            return Ok(0);
        };
        let stands = file.metadata()?.len().saturating_sub(at);
        let count = stands.min(buf.len() as u64) as usize;
        file.read_exact_at(&mut buf[..count], at)?;
        Ok(count)
    }

    fn write_at<R: Files<File = File>>(&mut self, rt: &R, at: u64, bytes: &[u8]) -> io::Result<()> {
        if !self.is_sought {
            self.look(rt)?;
        }
        if self.file.is_none() {
            // A file that came here since it was looked for is another process's, and is not written over.
            let made = OpenOptions::new()
                .read(true)
                .write(true)
                .create_new(true)
                .mode(0o600)
                .open(rt, self.path.as_str())?;
            self.file = Some(locked(made)?);
        }
        match &self.file {
            Some(file) if !self.is_lost => file.write_all_at(bytes, at),
            _ => Err(ErrorKind::Other.into()),
        }
    }

    // The first sync of a file puts its name on the disk too, and lets go of what the system keeps of it in
    // memory: after a sync that failed in an earlier process that may be other than what the disk has.
    fn sync<R: Files<File = File>>(&mut self, rt: &R, folder: &str) -> io::Result<()> {
        self.look(rt)?;
        let Some(file) = &self.file else {
            return Ok(());
        };
        self.is_lost = true;
        if self.is_settled {
            file.sync_data()?;
        } else {
            settle(rt, file, folder)?;
        }
        self.is_settled = true;
        self.is_lost = false;
        Ok(())
    }

    // Opens and locks the file, where that was not done yet and there is one.
    fn look<R: Files<File = File>>(&mut self, rt: &R) -> io::Result<()> {
        if self.is_lost {
            return Err(ErrorKind::Other.into());
        }
        if self.file.is_none() {
            self.file = found(rt, self.path.as_str())?;
        }
        self.is_sought = true;
        Ok(())
    }
}

// The file, opened and locked, where there is one.
fn found<R: Files<File = File>>(rt: &R, path: &str) -> io::Result<Option<File>> {
    match OpenOptions::new().read(true).write(true).open(rt, path) {
        Ok(file) => Ok(Some(locked(file)?)),
        Err(error) if error.kind() == ErrorKind::NotFound => Ok(None),
        Err(error) => Err(error),
    }
}

// A regular file, which no other has locked.
fn locked(file: File) -> io::Result<File> {
    if !file.metadata()?.is_file() {
        return Err(ErrorKind::Unsupported.into());
    }
    file.try_lock()?;
    Ok(file)
}

fn settle<R: Files<File = File>>(rt: &R, file: &File, folder: &str) -> io::Result<()> {
    file.sync_all()?;
    let advised = libc::posix_fadvise(file.as_raw_fd(), 0, 0, libc::POSIX_FADV_DONTNEED);
    if advised != 0 {
        return Err(io::Error::from_raw_os_error(advised));
    }
    std::fs::open(rt, folder)?.sync_all()
}
