//! A file.
ghost use Rattle.std.specs.Prelude.{◌≡◌, ◌≤◌, ℕ, List, None, false};
ghost use Rattle.craft_edge.specs.Causes.{Rose};

use crate::growing::{GrowingFile, MAX_LEN};
use craft_edge::{Disk, Failed};
use std::fs::{self, File};
use std::io;
use std::os::unix::fs::FileExt;
use std::path::Path;
use std::rt::Files;

/// A file that only this process writes, and that grows by steps of zeros behind what is written.
#[derive(Drop)]
pub struct FileDisk {
    inner: GrowingFile,
    faults: u64,
}

impl FileDisk {
    /// Opens a file to read and to write, and creates it where it isn't there. It is locked: where another process has it open in
    /// this way, that is an error. Once it is there a crash doesn't lose its name.
    pub fn open<R: Files<File = File>>(files: &R, path: &str) -> io::Result<FileDisk> {
        let file = File::options()
            .read(true)
            .write(true)
            .create(true)
            .open(files, path)?;
        if file.try_lock().is_err() {
            return Err(io::ErrorKind::ResourceBusy.into());
        }
        fs::open(files, folder_of(path))?.sync_all()?;
        let len = file.metadata()?.len();
        Ok(FileDisk {
            inner: GrowingFile::new(file, len),
            faults: 0,
        })
    }

    fn fail(&mut self) -> Failed
        ensures rose { Rose self.old.faults self.new.faults }
        ensures later { self.old.faults ≤ self.new.faults }
    {
        self.faults = self.faults.saturating_add(1);
        Failed
    }
}

/// The folder of a file.
fn folder_of(path: &str) -> &str {
    match Path::new(path).parent() {
        Some(folder) if !folder.as_str().is_empty() => folder.as_str(),
        _ => ".",
    }
}

impl Disk for FileDisk {
    ghost seen = { λ disk. None };

    ghost tells_crash = { λ disk. false };

    ghost may_leave = { λ disk image. ⊥ };

    ghost tells_past = { λ disk. false };

    ghost moment = { λ disk. 0 };

    ghost left_since = { λ disk moment image. ⊥ };

    ghost history = { λ disk. None };

    ghost faults = { λ disk. disk.faults };

    ghost use Rattle.std.proofs.Common.{rules};

    ghost leaves_seen = { Prim.search rules };

    ghost counts_now = { Prim.search rules };

    ghost only_now = { Prim.search rules };

    fn len(&mut self) -> Result<u64, Failed> {
        match self.inner.file().metadata() {
            Ok(facts) if facts.len() <= MAX_LEN => Ok(facts.len()),
            _ => Err(self.fail()),
        }
    }

    fn read_at(&mut self, at: u64, buf: &mut [u8]) -> Result<usize, Failed> {
        match self.inner.file().read_at(buf, at) {
            Ok(count) => Ok(count),
            Err(_) => Err(self.fail()),
        }
    }

    fn write_at(&mut self, at: u64, bytes: &[u8]) -> Result<(), Failed> {
        match self.inner.write_at(at, bytes) {
            Ok(()) => Ok(()),
            Err(_) => Err(self.fail()),
        }
    }

    fn sync(&mut self) -> Result<(), Failed> {
        match self.inner.file().sync_data() {
            Ok(()) => Ok(()),
            Err(_) => Err(self.fail()),
        }
    }
}
