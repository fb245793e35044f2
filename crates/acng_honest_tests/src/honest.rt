//! A site that tells: a table of one file, which is proved to be honest and to serve its targets. So the premises of what is
//! said over an honest site can be met, by an origin that the program's calls run over.
ghost use Rattle.std.specs.Prelude.{◌≡◌, List, IfOk, Ok};
ghost use Rattle.acng_site.specs.Honest.{IsHonest};
ghost use Rattle.acng_conf.specs.Settings.{Settings};
ghost use Rattle.acng_conf.specs.Readings.{reading};
ghost use Rattle.acng_remap.specs.Origins.{ServesTargets};

use acng_base::{NoMemory, Text};
use acng_site::{MemoryOrigin, NoGate, Right, Rule, Site};
use std::alloc::Global;

/// The site of one file of three bytes, for an empty configuration: each path is served at the URL of its name.
#[derive(Drop)]
pub struct OneFile;

impl Site for OneFile {
    ghost use Rattle.std.specs.Prelude.{[], true};
    ghost use Rattle.acng_site.specs.Rules.{first_rule, bytes_of, fault_of};
    ghost use Rattle.acng_remap.specs.Origins.{is_place};
    ghost use Rattle.acng_honest_tests.specs.Files.{file, rules};

    ghost tells = { true };

    ghost sent = { λ n a. bytes_of (first_rule rules n a) };

    ghost faulted = { λ n a. fault_of (first_rule rules n a) };

    ghost serves = { is_place [] };

    ghost instance = { λ _ _. file };
}

/// An origin of the site, which is honest.
pub fn start(alloc: Global) -> Result<(MemoryOrigin<OneFile, NoGate>, Right<OneFile>), NoMemory>
    ensures honest { IsHonest ⟦<OneFile as Site>⟧ }
    ensures right { IfOk result (λ started. started.1.next ≡ 0) }
{
    let rules = [Rule {
        url: Text::copy(alloc, b"http://a/f.deb")?,
        from: 0,
        first: 0,
        last: 9,
        bytes: Text::copy(alloc, b"HTTP/1.1 200 OK\r\nContent-Length: 3\r\n\r\nabc")?,
        fault: false,
    }];
    MemoryOrigin::<OneFile, NoGate>::start(alloc, &rules, 2, NoGate)
}
