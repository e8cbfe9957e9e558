//! A disk on a real file.
ghost use Rattle.std.specs.Prelude.{None, IfSome, ◌<◌, take, drop, ◌≡◌, ◌≤◌, length, IfOk};
ghost use Rattle.outside_io.specs.Moments.{IsImage};
ghost use Rattle.outside_io.specs.Traces.{Written, CutOff, Synced};
ghost use Rattle.outside_io.specs.Causes.{HasCause, Rose};
ghost use Rattle.std.specs.Io.{ReadsAtMost};

use outside_io::{Disk, Failed};
use std::fs::{self, OpenFile, OpenOptions};
use std::io::{self, ErrorKind, Read, Seek, SeekFrom, Write};
use std::marker::Model;
use std::path::Path;
use std::rt::Files;

/// A disk on the file of a path. A file that is not found has length 0 and is made at the first write; until then `cut` and `sync`
/// answer Ok and do nothing.
#[derive(Drop)]
pub struct FileDisk<'r, R: Files> {
    rt: &'r R,
    path: String,
    // Handles of the root folder, which can be neither read nor written.
    stand_ins: Option<(R::File, R::File, R::File)>,
    file: Option<R::File>,
    // The file is open for writing too.
    writes: bool,
    // The file was made, and its folder is not synced since.
    made: bool,
    faults: u64,
}

impl<'r, R: Files> Model for FileDisk<'r, R> {
    ghost use Rattle.std.specs.Prelude.{ℕ};

    ghost Value = { ℕ };

    ghost view = { λ a. a.faults };
}

impl<'r, R: Files> FileDisk<'r, R> {
    /// A disk on the file of this path, of which no call failed yet. Nothing is opened before the first call.
    pub fn new(rt: &'r R, path: String) -> FileDisk<'r, R>
        ensures { result ≡ 0 }
    {
        FileDisk {
            rt,
            path,
            stand_ins: None,
            file: None,
            writes: false,
            made: false,
            faults: 0,
        }
    }

    fn fault(&mut self) -> Failed
        ensures later { self.old ≤ self.new }
        ensures rose { Rose self.old self.new }
    {
        self.faults = self.faults.saturating_add(1);
        Failed
    }

    // Takes the numbers of standard streams that are closed. The file would get one else, and what is printed would go into it.
    fn stand_in(&mut self) -> io::Result<()>
        ensures { self.new ≡ self.old }
    {
        if self.stand_ins.is_none() {
            let input = fs::open(self.rt, "/")?;
            let output = fs::open(self.rt, "/")?;
            let error = fs::open(self.rt, "/")?;
            self.stand_ins = Some((input, output, error));
        }
        Ok(())
    }

    // Opens the file for reading, if it is found and not open yet.
    fn open_to_read(&mut self) -> io::Result<()>
        ensures { self.new ≡ self.old }
    {
        self.stand_in()?;
        if self.file.is_none() {
            self.file = found(fs::open(self.rt, self.path.as_str()))?;
        }
        Ok(())
    }

    // Opens the file for reading and writing, if it is found and not open so yet.
    fn open_to_write(&mut self) -> io::Result<()>
        ensures { self.new ≡ self.old }
    {
        self.stand_in()?;
        if !self.writes {
            let mut how = OpenOptions::new();
            how.read(true).write(true);
            self.file = found(how.open(self.rt, self.path.as_str()))?;
            self.writes = self.file.is_some();
        }
        Ok(())
    }

    // Makes the file, if it was not found.
    fn make(&mut self) -> io::Result<()>
        ensures { self.new ≡ self.old }
    {
        if self.file.is_none() {
            let mut how = OpenOptions::new();
            how.read(true).write(true).create_new(true);
            self.file = Some(how.open(self.rt, self.path.as_str())?);
            self.writes = true;
            self.made = true;
        }
        Ok(())
    }

    fn file_len(&mut self) -> io::Result<u64>
        ensures { self.new ≡ self.old }
    {
        self.open_to_read()?;
        match &self.file {
            Some(file) => Ok(file.metadata()?.len()),
            None => Ok(0),
        }
    }

    fn read_file(&mut self, at: u64, buf: &mut [u8]) -> io::Result<usize>
        ensures same { self.new ≡ self.old }
        ensures bound { ReadsAtMost result buf.new }
    {
        self.open_to_read()?;
        match &mut self.file {
            Some(file) => {
                file.seek(SeekFrom::Start(at))?;
                file.read(buf)
            }
            None => Ok(0),
        }
    }

    fn write_file(&mut self, at: u64, bytes: &[u8]) -> io::Result<()>
        ensures { self.new ≡ self.old }
    {
        self.open_to_write()?;
        self.make()?;
        if let Some(file) = &mut self.file {
            file.seek(SeekFrom::Start(at))?;
            file.write_all(bytes)?;
        }
        Ok(())
    }

    fn cut_file(&mut self, len: u64) -> io::Result<()>
        ensures { self.new ≡ self.old }
    {
        self.open_to_write()?;
        match &self.file {
            Some(file) => file.set_len(len),
            None => Ok(()),
        }
    }

    fn sync_file(&mut self) -> io::Result<()>
        ensures { self.new ≡ self.old }
    {
        self.open_to_write()?;
        if let Some(file) = &self.file {
            file.sync_all()?;
        }
        if self.made {
            // The name of a new file stands in its folder, and would be lost in a crash without it.
            fs::open(self.rt, folder(self.path.as_str()))?.sync_all()?;
            self.made = false;
        }
        Ok(())
    }
}

impl<R: Files> Disk for FileDisk<'_, R> {
    ghost trace = { λ _. None };

    ghost faults = { λ d. d };

    fn len(&mut self) -> Result<u64, Failed> {
        match self.file_len() {
            Ok(n) => Ok(n),
            Err(_) => Err(self.fault()),
        }
    }

    fn read_at(&mut self, at: u64, buf: &mut [u8]) -> Result<usize, Failed> {
        match self.read_file(at, buf) {
            Ok(n) => Ok(n),
            Err(_) => Err(self.fault()),
        }
    }

    fn write_at(&mut self, at: u64, bytes: &[u8]) -> Result<(), Failed> {
        match self.write_file(at, bytes) {
            Ok(()) => Ok(()),
            Err(_) => Err(self.fault()),
        }
    }

    fn cut(&mut self, len: u64) -> Result<(), Failed> {
        match self.cut_file(len) {
            Ok(()) => Ok(()),
            Err(_) => Err(self.fault()),
        }
    }

    fn sync(&mut self) -> Result<(), Failed> {
        match self.sync_file() {
            Ok(()) => Ok(()),
            Err(_) => Err(self.fault()),
        }
    }
}

// The file that was opened, or none where it is not found.
fn found<F: Drop>(opened: io::Result<F>) -> io::Result<Option<F>> {
    match opened {
        Ok(file) => Ok(Some(file)),
        Err(fault) if fault.kind() == ErrorKind::NotFound => Ok(None),
        Err(fault) => Err(fault),
    }
}

// The folder of a path: `.` for a bare name.
fn folder(path: &str) -> Path<'_> {
    match Path::new(path).parent() {
        Some(parent) if parent.as_os_str().len() > 0 => parent,
        _ => Path::new("."),
    }
}
