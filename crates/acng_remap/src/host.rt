//! Hosts of targets: a name and perhaps a port.
ghost use Rattle.std.specs.Prelude.{◌≡◌, ◌≤◌, ◌<◌, ◌++◌, ◌∷◌, OnOk, IfSome, length, position, decimal};
ghost use Rattle.std.specs.Str.{str_to_ascii_lowercase};
ghost use Rattle.acng_base.specs.Cuts.{colon, is_colon};
ghost use Rattle.acng_remap.specs.Hosts.{name_len, is_name, port_of, port_after, host_port, host_name, host_text};

use acng_base::{NoMemory, find_byte};
use acng_conf::{are_word_bytes, read_number};
use itoa::Buffer;

/// The port of a host's text, 80 where none is written. None where the text is no host.
#[tactic(auto, unfolding(crate::specs::Hosts::host_port))]
pub fn host_port(host: &[u8]) -> Option<u32>
    ensures { result ≡ host_port host.now }
{
    let len = name_len(host);
    if is_name(&host[..len]) {
        port_after(host, len)
    } else {
        None
    }
}

fn port_after(host: &[u8], len: usize) -> Option<u32>
    requires { len ≡ name_len host.now }
    ensures { result ≡ port_after host.now }
{
    if len < host.len() {
        port_of(&host[len + 1..])
    } else {
        Some(80)
    }
}

// Where the name ends: at the first colon, or with the text.
fn name_len(host: &[u8]) -> usize
    ensures at { result ≡ name_len host.now }
    ensures within { result ≤ length host.now }
{
    match first_colon(host) {
        Some(at) => at,
        None => host.len(),
    }
}

fn first_colon(host: &[u8]) -> Option<usize>
    ensures at { result ≡ position is_colon host.now }
    ensures within { IfSome result (λ k. k < length host.now) }
{
    find_byte(host, b':')
}

fn is_name(name: &[u8]) -> bool
    ensures { result ≡ is_name name.now }
{
    1 <= name.len() && name.len() <= 253 && are_word_bytes(name)
}

// The number that 1 to 5 digits write, from 1 to 65,535.
fn port_of(digits: &[u8]) -> Option<u32>
    ensures { result ≡ port_of digits.now }
{
    read_number(digits, 5, 1, 65_535)
}

/// Writes a host's canonical text, from the text as it was asked and its port.
#[tactic(auto, unfolding(crate::specs::Hosts::host_text, crate::specs::Hosts::host_name))]
pub fn push_host(bytes: &mut Vec<u8>, host: &[u8], port: u32) -> Result<(), NoMemory>
    ensures { OnOk result (bytes.new.items ≡ bytes.old.items ++ host_text (host_name host.now) port) }
{
    push_name(bytes, &host[..name_len(host)])?;
    if port == 80 {
        return Ok(());
    }
    push_port(bytes, port)
}

// In small letters.
fn push_name(bytes: &mut Vec<u8>, name: &[u8]) -> Result<(), NoMemory>
    ensures { OnOk result (bytes.new.items ≡ bytes.old.items ++ str_to_ascii_lowercase name.now) }
{
    for b in name {
        bytes.push(b.to_ascii_lowercase())?;
    }
    Ok(())
}

fn push_port(bytes: &mut Vec<u8>, port: u32) -> Result<(), NoMemory>
    ensures { OnOk result (bytes.new.items ≡ bytes.old.items ++ colon ∷ decimal port) }
{
    bytes.push(b':')?;
    let mut buffer = Buffer::new();
    bytes.extend_from_slice(buffer.format(port).as_bytes())?;
    Ok(())
}
