//! A client's link over memory. Others see how many bytes it has got, and it may wait at a door before it takes more.
ghost use Rattle.std.specs.Prelude.{Some};

use crate::door::Door;
use acng_base::{Failed, Link, MemoryLink, NoMemory};
use std::alloc::Global;
use std::sync::atomic::{AtomicU64, Ordering};

/// The most bytes that a link takes at once.
const CUT: usize = 1000;

/// A door, which a link comes to once it has so many bytes.
#[derive(Clone, Copy)]
pub struct Halt<'a> {
    pub door: &'a Door,
    pub front: usize,
}

/// A client's link.
#[derive(Drop)]
pub struct Client<'a> {
    link: MemoryLink,
    got: &'a AtomicU64,
    halt: Option<Halt<'a>>,
}

impl<'a> Client<'a> {
    /// The link of a client that sends these bytes and has room for so many.
    pub fn new(
        alloc: Global,
        request: &[u8],
        room: usize,
        got: &'a AtomicU64,
        halt: Option<Halt<'a>>,
    ) -> Result<Client<'a>, NoMemory> {
        let link = MemoryLink::new(alloc, request, room, CUT, &[])?;
        Ok(Client { link, got, halt })
    }

    /// The bytes that the client got.
    pub fn written(&self) -> &[u8] {
        self.link.written()
    }

    fn wait(&self) {
        if let Some(halt) = self.halt {
            if self.link.written().len() >= halt.front {
                halt.door.pass();
            }
        }
    }

    fn tell(&self) {
        let got = self.link.written().len() as u64;
        self.got.store(got, Ordering::SeqCst);
    }
}

impl<'a> Link for Client<'a> {
    ghost left = { λ c. Some c.link.left };

    ghost written = { λ c. Some c.link.written };

    ghost faults = { λ c. c.link.faults };

    fn read(&mut self, buf: &mut [u8]) -> Result<usize, Failed> {
        self.link.read(buf)
    }

    fn write(&mut self, piece: &[u8]) -> Result<usize, Failed> {
        self.wait();
        let outcome = self.link.write(piece);
        self.tell();
        outcome
    }
}
