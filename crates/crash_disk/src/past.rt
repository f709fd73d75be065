//! What a disk tells of its past. It exists only in proofs and costs nothing when it runs.
ghost use Rattle.std.specs.Prelude.{◌≡◌, []};
ghost use Rattle.std.specs.Borrow.{ftrue};
ghost use Rattle.crash_disk.specs.Told.{Told, made_with};
ghost use Rattle.crash_disk.specs.Codes.{told_code};

use std::marker::Model;

#[derive(Drop)]
pub(crate) struct Past {
    pub(crate) ghost told: { Told } by { told_code },
}

impl Model for Past {
    ghost also_owns = { λ _. ftrue };
}

/// What a call asked for.
#[derive(Clone, Copy, Drop)]
pub(crate) enum Work<'a> {
    Len,
    ReadAt { at: u64, len: usize },
    WriteAt { at: u64, bytes: &'a [u8] },
    Sync,
}

/// What happened to the disk.
#[derive(Clone, Copy, Drop)]
pub(crate) enum Note<'a> {
    /// It was made with these bytes, and with the numbers of the calls that are to fail.
    Made {
        bytes: &'a [u8],
        fail: &'a [u64],
    },
    /// A call, which failed or didn't, and took effect or not.
    Call {
        work: Work<'a>,
        failed: bool,
        effect: bool,
    },
    /// It was told to stop.
    Stop {
        call: u8,
        keep: bool,
    },
}

impl Past {
    ghost use Rattle.crash_disk.specs.Noted.{after_note};

    /// The past of a disk that was made with nothing.
    #[inline(always)]
    pub(crate) fn new() -> Past
        ensures { result.told ≡ made_with [] [] }
    {
        Past {}
    }

    /// The past with one note more.
    #[inline(always)]
    pub(crate) fn with(&self, _note: &Note<'_>) -> Past
        ensures { result.told ≡ after_note self.now.told _note.now }
    {
        Past {}
    }
}
