//! A file that grows by steps.
ghost use Rattle.std.specs.Prelude.{◌+◌, ◌<◌, length, IsErr};
ghost use Rattle.craft_edge.specs.Disk.{max_len};

use std::fs::File;
use std::io;
use std::os::unix::fs::FileExt;

/// The greatest length of a file.
pub(crate) const MAX_LEN: u64 = 1 << 62;

/// A file grows by so many bytes at a time.
const STEP: u64 = 1 << 20;

/// Zeros are written in pieces of that length.
const PIECE: usize = 1 << 16;

static ZEROS: [u8; PIECE] = [0; PIECE];

/// How long a new file becomes first: that of a journal without groups, which is told from one that was never finished by its length.
const FIRST: u64 = 33;

/// A file that only this process writes. A write behind its first bytes that would make it longer makes it longer by steps of zeros
/// first, so that most later ones don't: the system writes down a new length at each sync, and that takes as long as the bytes do.
#[derive(Drop)]
pub(crate) struct GrowingFile {
    file: File,
    len: u64,
}

impl GrowingFile {
    /// This file, which has that length.
    pub(crate) fn new(file: File, len: u64) -> GrowingFile {
        GrowingFile { file, len }
    }

    /// The file.
    pub(crate) fn file(&self) -> &File {
        &self.file
    }

    /// Writes the bytes at that offset. Where the end would be too far nothing is written.
    pub(crate) fn write_at(&mut self, at: u64, bytes: &[u8]) -> io::Result<()>
        ensures { max_len < at + length bytes.now → IsErr result }
    {
        let end = at.saturating_add(bytes.len() as u64);
        if end > MAX_LEN {
            return Err(io::ErrorKind::FileTooLarge.into());
        }
        if at >= FIRST && end > self.len {
            self.grow(end)?;
        }
        self.file.write_all_at(bytes, at)?;
        self.len = self.len.max(end);
        Ok(())
    }

    /// Adds zeros up to a step that is no less than that length.
    fn grow(&mut self, end: u64) -> io::Result<()> {
        let steps = end / STEP + 1;
        let pieces = steps.saturating_mul(STEP / PIECE as u64);
        for piece in self.len / PIECE as u64..pieces {
            let to = piece.saturating_add(1).saturating_mul(PIECE as u64);
            let missing = to.saturating_sub(self.len).min(PIECE as u64);
            self.file
                .write_all_at(&ZEROS[..missing as usize], self.len)?;
            self.len = to;
        }
        Ok(())
    }
}
