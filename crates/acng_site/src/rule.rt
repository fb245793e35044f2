//! What an origin over memory answers.
ghost use Rattle.std.specs.Prelude.{◌≡◌, IfOk};

use acng_base::{NoMemory, Text};
use std::alloc::Global;

/// The bytes that asks of a URL from a place get in the attempts `first` to `last`, both inclusive, and whether a fault
/// follows the bytes.
#[derive(Debug, Drop)]
pub struct Rule {
    pub url: Text,
    pub from: u64,
    pub first: u64,
    pub last: u64,
    pub bytes: Text,
    pub fault: bool,
}

impl Rule {
    /// The same rule once more.
    pub fn again(&self, alloc: Global) -> Result<Rule, NoMemory>
        ensures { IfOk result (λ rule. rule ≡ self.now) }
    {
        Ok(Rule {
            url: Text::copy(alloc, self.url.as_bytes())?,
            from: self.from,
            first: self.first,
            last: self.last,
            bytes: Text::copy(alloc, self.bytes.as_bytes())?,
            fault: self.fault,
        })
    }
}
