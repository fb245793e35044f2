//! The readers of whole indexes.
ghost use Rattle.std.specs.Prelude.{◌≡◌, ◌≢◌, Ok, Err, IfOk, IfErr};
ghost use Rattle.acng_index.specs.Releases.{release, release_from};
ghost use Rattle.acng_index.specs.Frames.{inrelease};
ghost use Rattle.acng_index.specs.Packages.{packages};
ghost use Rattle.acng_index.specs.Gives.{Gives};

use crate::drive::read_stanzas;
use crate::fault::IndexFault;
use crate::frame::read_frame;
use crate::names::{NameTaker, Names};
use crate::one::OneTaker;
use crate::release::Release;
use acng_stanza::StanzaFault;
use std::alloc::Global;

/// What a Release lists, or its first refusal.
pub fn read_release(alloc: Global, text: &[u8]) -> Result<Release, IndexFault>
    ensures read { IfOk result (λ listed. release text.now ≡ Ok listed) }
    ensures refused { IfErr result (λ fault. fault ≢ IndexFault.NoMemory → release text.now ≡ Err fault) }
{
    release_from(alloc, text, 1)
}

/// What an InRelease lists, a Release inside a signature, or its first refusal. The signature isn't checked.
pub fn read_inrelease(alloc: Global, text: &[u8]) -> Result<Release, IndexFault>
    ensures read { IfOk result (λ listed. inrelease text.now ≡ Ok listed) }
    ensures refused { IfErr result (λ fault. fault ≢ IndexFault.NoMemory → inrelease text.now ≡ Err fault) }
{
    match read_frame(alloc, text) {
        Ok(framed) => release_from(alloc, &framed.text, framed.first),
        Err(fault) => Err(fault),
    }
}

/// The files that a list of packages names, or its first refusal.
pub fn read_packages(alloc: Global, text: &[u8]) -> Result<Names, IndexFault>
    ensures read { IfOk result (λ names. packages text.now ≡ Ok names) }
    ensures refused { IfErr result (λ fault. fault ≢ IndexFault.NoMemory → packages text.now ≡ Err fault) }
{
    let mut taker = NameTaker::new(alloc);
    match read_stanzas(alloc, text, 1, &mut taker) {
        Ok(()) => taker.finish(),
        Err(StanzaFault::NoMemory) => Err(IndexFault::NoMemory),
        Err(fault) => Err(IndexFault::Stanza(fault)),
    }
}

// What the Release lists whose first line has this number.
fn release_from(alloc: Global, text: &[u8], line: u64) -> Result<Release, IndexFault>
    ensures { Gives (release_from line text.now) result }
{
    let mut taker = OneTaker::new();
    match read_stanzas(alloc, text, line, &mut taker) {
        Ok(()) => taker.finish(alloc),
        Err(StanzaFault::NoMemory) => Err(IndexFault::NoMemory),
        Err(fault) => Err(IndexFault::Stanza(fault)),
    }
}
