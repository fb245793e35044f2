//! A body in a file of a folder. Bytes are written and read at places, each piece by one system call.
ghost use Rattle.std.specs.Prelude.{◌≡◌, [], true, false, min, OnOk, OnErr};
ghost use Rattle.acng_keeper.specs.Handles.{is_lost};
ghost use mathlib.Core.Bool.{true≢false};
ghost use mathlib.Core.Path.{sym};

use crate::body::{BodyFile, BodyId};
use crate::calls::{CallSlip, FaultCount};
use crate::slip::KeepFault;
use acng_base::FileFault;
use std::alloc::Global;
use std::fs::File;
use std::os::unix::fs::FileExt;

/// Where a body's data is.
#[derive(Clone, Copy, Debug, PartialEq, Eq)]
pub(crate) enum Data {
    /// With the system, and perhaps on the disk.
    Written,
    /// On the disk.
    Synced,
    /// Perhaps nowhere: the system refused to put it on the disk.
    Lost,
}

impl Data {
    // Once more is written.
    fn rewritten(self) -> Data
        ensures { is_lost result ≡ is_lost self }
    {
        match self {
            Data::Lost => Data::Lost,
            _ => Data::Written,
        }
    }
}

/// A body in a file.
#[derive(Drop)]
pub struct FolderBody {
    pub(crate) file: File,
    pub(crate) number: u64,
    pub(crate) len: u64,
    pub(crate) writable: bool,
    pub(crate) data_is: Data,
    pub(crate) calls: FaultCount,
    ghost fails: { calls.may_fail ≡ true },
}

impl FolderBody {
    /// Cuts the file at the length and syncs its data. After a sync that failed the system may have dropped pages, and
    /// the next sync would say nothing of them: so the body is lost then.
    pub(crate) fn make_durable(&mut self) -> Result<(), FileFault>
        ensures frame { self.new ≡ record self.old { data_is = self.new.data_is } }
        ensures sound { OnOk result (is_lost self.new.data_is ≡ false) }
        ensures refused { OnErr result (is_lost self.new.data_is ≡ true) }
        ensures still_lost { is_lost self.old.data_is ≡ true → is_lost self.new.data_is ≡ true }
    {
        match self.data_is {
            Data::Synced => Ok(()),
            Data::Lost => Err(FileFault::Failed),
            Data::Written => {
                self.data_is = Data::Lost;
                self.file.set_len(self.len)?;
                self.file.sync_data()?;
                self.data_is = Data::Synced;
                Ok(())
            }
        }
    }
}

impl BodyFile for FolderBody {
    type Slip = CallSlip;

    ghost tells = { false };

    ghost handle = { λ b. record { number = b.number; size = b.len; bytes = []; writable = b.writable } };

    ghost lost = { λ b. is_lost b.data_is };

    ghost faults = { λ b. b.calls };

    ghost sized = { λ b t. absurd (true≢false (sym t)) };

    ghost lossy = { λ b t. b.fails };

    fn append(&mut self, _alloc: Global, piece: &[u8]) -> Result<(), KeepFault<CallSlip>> {
        let number = self.calls.begin();
        let Some(len) = self.len.checked_add(piece.len() as u64) else {
            return Err(KeepFault::Slip(self.calls.fail(number)));
        };
        // A write that fails may have put bytes past the length too.
        self.data_is = self.data_is.rewritten();
        match self.file.write_all_at(piece, self.len) {
            Ok(()) => {
                self.len = len;
                Ok(())
            }
            Err(_) => Err(KeepFault::Slip(self.calls.fail(number))),
        }
    }

    fn flush(&mut self) -> Result<(), CallSlip> {
        let number = self.calls.begin();
        match self.make_durable() {
            Ok(()) => Ok(()),
            Err(_) => Err(self.calls.fail(number)),
        }
    }

    fn read_at(&mut self, from: u64, buf: &mut [u8]) -> Result<usize, CallSlip> {
        let number = self.calls.begin();
        let most = fitting(self.len.saturating_sub(from), buf.len());
        if most == 0 {
            return Ok(0);
        }
        match self.file.read_at(&mut buf[..most], from) {
            Ok(count) if count > 0 => Ok(count),
            _ => Err(self.calls.fail(number)),
        }
    }

    fn len(&self) -> u64 {
        self.len
    }

    fn id(&self) -> BodyId {
        BodyId(self.number)
    }
}

// The lesser of what is there and what fits.
fn fitting(there: u64, fits: usize) -> usize
    ensures { result ≡ min there fits }
{
    if there < fits as u64 {
        there as usize
    } else {
        fits
    }
}
