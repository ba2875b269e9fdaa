// A file as a source.
ghost use Rattle.std.specs.Prelude.{◌≡◌, false};
ghost use Rattle.std.specs.Io.{ReadsAtMost};
ghost use Rattle.arc_io.specs.Seen.{untold};

use crate::{Ends, Failed, Source};
use std::io::Read;
use std::rt::Files;
use std::{fs, io};

/// A file, which is opened at the first read. A file that is missing, or can't be opened or read, is a
/// read fault of each call that meets it.
#[derive(Drop)]
pub struct FileSource<'a, R: Files> {
    rt: R,
    path: &'a str,
    file: Option<R::File>,
    faults: u64,
    ended: bool,
}

impl<'a, R: Files> FileSource<'a, R> {
    /// The file of this path. Nothing is opened yet.
    pub fn new(rt: R, path: &'a str) -> Self
        ensures read_faults { (⟦<FileSource<'a, R> as Ends>⟧.seen result).read_faults ≡ 0 }
        ensures not_ended { (⟦<FileSource<'a, R> as Ends>⟧.seen result).ended ≡ false }
    {
        FileSource {
            rt,
            path,
            file: None,
            faults: 0,
            ended: false,
        }
    }
}

impl<'a, R: Files> Ends for FileSource<'a, R> {
    ghost seen = { λ s. record untold { ended = s.ended; read_faults = s.faults } };
}

impl<'a, R: Files> Source for FileSource<'a, R> {
    fn read(&mut self, buf: &mut [u8]) -> Result<usize, Failed> {
        match read_opened(&self.rt, self.path, &mut self.file, buf) {
            Ok(count) => {
                self.ended = count == 0 && !buf.is_empty();
                Ok(count)
            }
            Err(_) => {
                self.faults = self.faults.saturating_add(1);
                Err(Failed)
            }
        }
    }

    fn read_faults(&self) -> u64 {
        self.faults
    }
}

// Reads the file's next bytes, and opens it first where it is not open yet.
fn read_opened<R: Files>(
    rt: &R,
    path: &str,
    file: &mut Option<R::File>,
    buf: &mut [u8],
) -> io::Result<usize>
    ensures { ReadsAtMost result buf.new }
{
    if let Some(opened) = file {
        return opened.read(buf);
    }
    let mut opened = fs::open(rt, path)?;
    let outcome = opened.read(buf);
    *file = Some(opened);
    outcome
}
