//! A keeper over a plain folder: one file a body, one file a head. It is the trusted edge and tells nothing.
//!
//! A stop at any moment leaves each acknowledged head and each sealed body as they were. `seal` cuts the body's file
//! at its length and syncs its data, and only then may its head be put; a head is written whole under another name
//! and renamed. The head itself isn't synced: one that a power failure loses or tears is only a body that is fetched
//! again, since a torn head doesn't read, while a good head over other bytes must never be.
//!
//! One keeper at a time has the folder: it holds a lock on the folder's own handle. A program that serves refuses a
//! folder that another has; one that ends by itself waits for it, so that several may be started at a time. The folder
//! is synced as it is opened: an id is used a second time only after that, and a removed head must not come back over
//! another body. Bodies are read and written at places, each by one system call.
ghost use Rattle.std.specs.Prelude.{◌≡◌, ◌≤◌, ◌^◌, true, false, IfOk};
ghost use Rattle.std.specs.Map.{keys_of};
ghost use Rattle.acng_keeper.specs.Kept.{nothing};
ghost use Rattle.acng_keeper.specs.Handles.{is_lost};
ghost use Rattle.acng_keeper.specs.Lists.{AllBelow};
ghost use Rattle.acng_keeper.specs.Slips.{none_yet};
ghost use mathlib.Core.Bool.{true≢false};
ghost use mathlib.Core.Path.{refl, sym};

use crate::body::BodyId;
use crate::calls::{CallSlip, FaultCount};
use crate::folder_file::{Data, FolderBody};
use crate::folder_scan::{bodies_in, heads_in, next_in};
use crate::keeper::Keeper;
use crate::lists::{Heads, Ids};
use crate::names::{Kind, path_in};
use crate::slip::KeepFault;
use acng_base::{FileFault, NoMemory};
use std::alloc::{AllocError, Global};
use std::fs::{File, TryLockError};
use std::io::ErrorKind;
use std::os::unix::fs::FileExt;
use std::rt::Files;
use std::time::{Clock, Duration};
use std::{fs, io, thread};

/// How long a program that ends by itself waits for a folder that another keeper has.
pub const LOCK_SECONDS: u64 = 30;

/// How often it asks for the lock in a second.
const ASKS_PER_SECOND: u64 = 20;

/// Why a folder wasn't opened.
#[derive(Debug, Drop)]
pub enum OpenFault {
    /// Another keeper has it.
    Locked,
    /// The system refused a call.
    Failed,
    NoMemory,
}

impl From<FileFault> for OpenFault {
    fn from(fault: FileFault) -> OpenFault {
        match fault {
            FileFault::Failed => OpenFault::Failed,
            FileFault::NoMemory => OpenFault::NoMemory,
        }
    }
}

impl From<io::Error> for OpenFault {
    fn from(error: io::Error) -> OpenFault {
        OpenFault::from(FileFault::from(error))
    }
}

impl From<NoMemory> for OpenFault {
    fn from(_: NoMemory) -> OpenFault
        ensures { result ≡ OpenFault.NoMemory }
    {
        OpenFault::NoMemory
    }
}

impl From<AllocError> for OpenFault {
    fn from(_: AllocError) -> OpenFault
        ensures { result ≡ OpenFault.NoMemory }
    {
        OpenFault::NoMemory
    }
}

/// A keeper over a folder.
#[derive(Drop)]
pub struct FolderKeeper<R: Files<File = File> + AllocGlobal + Clone + Drop> {
    rt: R,
    folder: String,
    // The lock is held as long as this handle is.
    lock: File,
    next: u64,
    calls: FaultCount,
    ghost bounded: { next ≤ 2 ^ 63 },
}

impl<R: Files<File = File> + AllocGlobal + Clone + Drop> FolderKeeper<R> {
    /// Opens a folder, and makes it where it isn't there. A folder that another keeper has is refused at once and
    /// untouched. The next id is one above the greatest in the folder.
    pub fn new(rt: R, alloc: Global, folder: &str) -> Result<FolderKeeper<R>, OpenFault>
        ensures { IfOk result (λ keeper. ⟦<FolderKeeper<R> as Keeper>⟧.faults keeper ≡ none_yet true) }
    {
        let handle = handle_of(&rt, folder)?;
        if !take_lock(&handle)? {
            return Err(OpenFault::Locked);
        }
        FolderKeeper::over(rt, alloc, folder, handle)
    }

    // A keeper over the folder whose handle this is, and is locked.
    fn over(rt: R, alloc: Global, folder: &str, lock: File) -> Result<FolderKeeper<R>, OpenFault>
        ensures { IfOk result (λ keeper. ⟦<FolderKeeper<R> as Keeper>⟧.faults keeper ≡ none_yet true) }
    {
        lock.sync_all()?;
        let next = next_in(&rt, folder)?;
        let folder = String::from_str(alloc, folder)?;
        let calls = FaultCount::new(alloc)?;
        Ok(FolderKeeper {
            rt,
            folder,
            lock,
            next,
            calls,
        })
    }
}

impl<R: Files<File = File> + AllocGlobal + Clock + Clone + Drop> FolderKeeper<R> {
    /// The same, but a folder that another keeper has is refused only after so many seconds in which it had it.
    pub fn new_within(
        rt: R,
        alloc: Global,
        folder: &str,
        seconds: u64,
    ) -> Result<FolderKeeper<R>, OpenFault>
        ensures { IfOk result (λ keeper. ⟦<FolderKeeper<R> as Keeper>⟧.faults keeper ≡ none_yet true) }
    {
        let handle = handle_of(&rt, folder)?;
        if !take_lock_within(&rt, &handle, seconds)? {
            return Err(OpenFault::Locked);
        }
        FolderKeeper::over(rt, alloc, folder, handle)
    }
}

impl<R: Files<File = File> + AllocGlobal + Clone + Drop> FolderKeeper<R> {
    // A new file for the next body.
    fn begin_body(&self, alloc: Global) -> Result<FolderBody, FileFault>
        ensures number { IfOk result (λ b. b.number ≡ self.now.next) }
        ensures empty { IfOk result (λ b. b.len ≡ 0) }
        ensures writable { IfOk result (λ b. b.writable ≡ true) }
        ensures sound { IfOk result (λ b. is_lost b.data_is ≡ false) }
        ensures calls { IfOk result (λ b. b.calls ≡ none_yet self.now.calls.may_fail) }
    {
        let calls = self.calls.share()?;
        let path = path_in(alloc, self.folder.as_str(), Kind::Body, self.next)?;
        let file = File::create_new(&self.rt, path.as_str())?;
        Ok(FolderBody {
            file,
            number: self.next,
            len: 0,
            writable: true,
            data_is: Data::Written,
            calls,
        })
    }

    // The file of a body.
    fn find_body(&self, alloc: Global, id: u64) -> Result<FolderBody, FileFault>
        ensures number { IfOk result (λ b. b.number ≡ id) }
        ensures sealed { IfOk result (λ b. b.writable ≡ false) }
        ensures sound { IfOk result (λ b. is_lost b.data_is ≡ false) }
        ensures calls { IfOk result (λ b. b.calls ≡ none_yet self.now.calls.may_fail) }
    {
        let calls = self.calls.share()?;
        let path = path_in(alloc, self.folder.as_str(), Kind::Body, id)?;
        let file = File::open(&self.rt, path.as_str())?;
        let len = file.metadata()?.len();
        Ok(FolderBody {
            file,
            number: id,
            len,
            writable: false,
            data_is: Data::Synced,
            calls,
        })
    }

    // The head is written under a name of its own and renamed, so that it is there whole or not at all.
    fn write_head(&self, alloc: Global, id: u64, bytes: &[u8]) -> Result<(), FileFault> {
        let mut draft = String::from_str(alloc, self.folder.as_str())?;
        draft.push_str("/draft")?;
        let path = path_in(alloc, self.folder.as_str(), Kind::Head, id)?;
        let file = File::create(&self.rt, draft.as_str())?;
        file.write_all_at(bytes, 0)?;
        fs::rename(&self.rt, draft.as_str(), path.as_str())?;
        Ok(())
    }

    // Removes the file, if it is there.
    fn remove(&self, alloc: Global, kind: Kind, id: u64) -> Result<(), FileFault> {
        let path = path_in(alloc, self.folder.as_str(), kind, id)?;
        match fs::remove_file(&self.rt, path.as_str()) {
            Ok(()) => Ok(()),
            Err(error) if error.kind() == ErrorKind::NotFound => Ok(()),
            Err(error) => Err(FileFault::from(error)),
        }
    }

    fn heads(&self, alloc: Global) -> Result<Heads, FileFault>
        ensures { IfOk result (λ heads. AllBelow self.now.next (keys_of heads)) }
    {
        let heads = heads_in(&self.rt, alloc, self.folder.as_str(), self.next)?;
        let list = heads.into_list(alloc)?;
        Ok(Heads::of(list))
    }

    fn bodies(&self, alloc: Global) -> Result<Ids, FileFault>
        ensures { IfOk result (λ ids. AllBelow self.now.next ids) }
    {
        let bodies = bodies_in(&self.rt, alloc, self.folder.as_str(), self.next)?;
        let list = bodies.into_ids(alloc)?;
        Ok(Ids::of(list))
    }
}

impl<R: Files<File = File> + AllocGlobal + Clone + Drop> Keeper for FolderKeeper<R> {
    type Body = FolderBody;

    ghost tells = { false };

    ghost kept = { λ k. nothing };

    ghost next = { λ k. k.next };

    ghost faults = { λ k. k.calls };

    ghost body_tells = { refl };

    ghost bounded = { λ k. k.bounded };

    ghost sound = { λ k t. absurd (true≢false (sym t)) };

    fn next_id(&self) -> u64 {
        self.next
    }

    fn create(&mut self, alloc: Global) -> Result<(BodyId, FolderBody), KeepFault<CallSlip>> {
        let number = self.calls.begin();
        let done = self.begin_body(alloc);
        let body = self.calls.answer(number, done)?;
        let id = BodyId(self.next);
        self.next += 1;
        Ok((id, body))
    }

    fn seal(
        &mut self,
        _alloc: Global,
        _id: BodyId,
        mut body: FolderBody,
    ) -> Result<FolderBody, (KeepFault<CallSlip>, FolderBody)> {
        let number = self.calls.begin();
        body.writable = false;
        let done = body.make_durable();
        match self.calls.answer(number, done) {
            Ok(()) => Ok(body),
            Err(fault) => Err((fault, body)),
        }
    }

    fn fetch_body(&mut self, alloc: Global, id: BodyId) -> Result<FolderBody, KeepFault<CallSlip>> {
        let number = self.calls.begin();
        let done = self.find_body(alloc, id.0);
        self.calls.answer(number, done)
    }

    fn put_head(
        &mut self,
        alloc: Global,
        id: BodyId,
        bytes: &[u8],
    ) -> Result<(), KeepFault<CallSlip>> {
        let number = self.calls.begin();
        let done = self.write_head(alloc, id.0, bytes);
        self.calls.answer(number, done)
    }

    fn list_heads(&mut self, alloc: Global) -> Result<Heads, KeepFault<CallSlip>> {
        let number = self.calls.begin();
        let done = self.heads(alloc);
        self.calls.answer(number, done)
    }

    fn list_bodies(&mut self, alloc: Global) -> Result<Ids, KeepFault<CallSlip>> {
        let number = self.calls.begin();
        let done = self.bodies(alloc);
        self.calls.answer(number, done)
    }

    fn remove_head(&mut self, alloc: Global, id: BodyId) -> Result<(), KeepFault<CallSlip>> {
        let number = self.calls.begin();
        let done = self.remove(alloc, Kind::Head, id.0);
        self.calls.answer(number, done)
    }

    fn remove_body(&mut self, alloc: Global, id: BodyId) -> Result<(), KeepFault<CallSlip>> {
        let number = self.calls.begin();
        let done = self.remove(alloc, Kind::Body, id.0);
        self.calls.answer(number, done)
    }
}

// The folder's own handle. The folder is made where it isn't there.
fn handle_of(rt: &impl Files<File = File>, folder: &str) -> io::Result<File> {
    fs::create_dir_all(rt, folder)?;
    File::open(rt, folder)
}

// Takes the lock that no other handle has. Whether it is there.
fn take_lock(handle: &File) -> io::Result<bool> {
    match handle.try_lock() {
        Ok(()) => Ok(true),
        Err(TryLockError::WouldBlock) => Ok(false),
        Err(TryLockError::Error(error)) => Err(error),
    }
}

// The same, as soon as it is free within so many seconds.
fn take_lock_within(clock: &impl Clock, handle: &File, seconds: u64) -> io::Result<bool> {
    for _ in 0..seconds.saturating_mul(ASKS_PER_SECOND) {
        if take_lock(handle)? {
            return Ok(true);
        }
        thread::sleep(clock, Duration::from_millis(1000 / ASKS_PER_SECOND));
    }
    take_lock(handle)
}
