//! A run and the line that it prints.
ghost use Rattle.std.specs.Prelude.{◌≡◌, ◌++◌, List, ℕ, Some, IfOk, OnOk, OnErr, decimal, option_map};
ghost use Rattle.acng_expire.specs.Lines.{line_of, slip_of, HasLine, HasEnded};

use crate::run::{Expired, expire};
use acng_base::{CachePath, Moment, NoMemory, Text};
use acng_desk::{Desk, Joint};
use acng_keeper::{Keeper, SlipOf};
use acng_site::Site;
use itoa::Buffer;
use std::alloc::Global;

/// The line of a run, when it was, and its slip. Only `expire_line` hands one out, so whoever has one shows a run.
#[derive(Debug, Drop)]
pub struct ExpireLine<P> {
    text: Text,
    moment: Moment,
    slip: Option<P>,
}

impl<P> ExpireLine<P> {
    /// The line, without its line end.
    pub fn as_bytes(&self) -> &[u8]
        ensures { result.now ≡ self.now.text }
    {
        self.text.as_bytes()
    }

    /// The moment of the run.
    pub fn moment(&self) -> Moment
        ensures { result ≡ self.now.moment }
    {
        self.moment
    }

    /// The slip of the run, where a call of the keeper failed.
    pub fn slip(&self) -> Option<&P>
        ensures { option_map (λ slip. slip.now) result ≡ self.now.slip }
    {
        self.slip.as_ref()
    }
}

fn push(bytes: &mut Vec<u8>, piece: &[u8]) -> Result<(), NoMemory>
    ensures { OnOk result (bytes.new.items ≡ bytes.old.items ++ piece.now) }
{
    bytes.extend_from_slice(piece)?;
    Ok(())
}

// A word and a number behind it.
fn push_count(bytes: &mut Vec<u8>, word: &[u8], n: u64) -> Result<(), NoMemory>
    ensures { OnOk result (bytes.new.items ≡ bytes.old.items ++ (word.now ++ decimal n)) }
{
    push(bytes, word)?;
    let mut buffer = Buffer::new();
    push(bytes, buffer.format(n).as_bytes())
}

/// `done removed R marked M`, `aborted problems P` or `stopped removed R`. For a run that memory stopped there is no line.
pub fn print_expired<P>(alloc: Global, ended: &Expired<P>) -> Result<Text, NoMemory>
    ensures { IfOk result (λ text. line_of ended.now ≡ Some text) }
{
    let mut bytes = Vec::new(alloc);
    match ended {
        Expired::Done { removed, marked } => {
            push_count(&mut bytes, b"done removed ", *removed)?;
            push_count(&mut bytes, b" marked ", *marked)?;
        }
        Expired::Aborted { problems } => push_count(&mut bytes, b"aborted problems ", *problems)?,
        Expired::Stopped { removed, .. } => push_count(&mut bytes, b"stopped removed ", *removed)?,
        Expired::NoMemory { .. } => return Err(NoMemory),
    }
    Ok(Text::of(bytes))
}

fn slip_of<P: Drop>(ended: Expired<P>) -> Option<P>
    ensures { result ≡ slip_of ended }
{
    match ended {
        Expired::Stopped { slip, .. } => Some(slip),
        Expired::Done { .. } | Expired::Aborted { .. } | Expired::NoMemory { .. } => None,
    }
}

/// A run with no failed path, and its line. Memory may be refused after files went.
pub fn expire_line<S: Site, K: Keeper, T: Joint>(
    alloc: Global,
    desk: &mut Desk<S, K, T>,
    now: Moment,
) -> Result<ExpireLine<SlipOf<K>>, NoMemory>
    ensures line { IfOk result (λ line. HasLine K.tells now desk.old desk.new line) }
    ensures refused { OnErr result (HasEnded K.tells now desk.old desk.new) }
{
    let failed: [CachePath; 0] = [];
    let ended = expire(alloc, desk, &failed, now);
    match print_expired(alloc, &ended) {
        Ok(text) => Ok(ExpireLine {
            text,
            moment: now,
            slip: slip_of(ended),
        }),
        Err(NoMemory) => Err(NoMemory),
    }
}
