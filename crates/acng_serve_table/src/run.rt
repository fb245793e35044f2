//! The runs of a script.
use crate::client::{Tap, clock_of};
use crate::escape::lines_of;
use crate::fault::Fault;
use crate::mirror::{Mirror, start};
use crate::script::{Client, NEVER, Script, Varied};
use crate::shop::{Cache, Closed, Shop, conf_of};
use crate::single::{Ran, run_once};
use crate::told::{note_line, once_word, stop_word};
use acng_cli::Once;
use acng_keeper::CallSlip;
use acng_serve::SessionEnd;
use hex::encode;
use sha2::{Digest, Sha256};
use std::alloc::Global;

/// The most bytes that are printed as text.
const MOST_TEXT: usize = 1_200;

/// Which value a run of a script has.
#[derive(Clone, Copy)]
struct Value {
    varied: Varied,
    value: u64,
}

impl Value {
    // The value, where this is what varies.
    fn of(self, varied: Varied) -> Option<u64> {
        (self.varied == varied).then_some(self.value)
    }
}

/// Runs a script, once for each value of what varies.
pub fn run_script(alloc: Global, script: &Script) -> Result<String, Fault> {
    let name = script.name.as_str();
    let mut out = format!(in alloc; "script {name}\n")?;
    if script.varied == Varied::Nothing && !script.swept {
        run_value(alloc, script, value_of(script, 0), &mut out)?;
        return Ok(out);
    }
    let values = run_values(alloc, script)?;
    if script.swept {
        tell_swept(alloc, values.as_str(), &mut out)?;
    } else {
        out.push_str(values.as_str())?;
    }
    Ok(out)
}

// The runs by each value.
fn run_values(alloc: Global, script: &Script) -> Result<String, Fault> {
    let mut out = String::new(alloc);
    for value in script.from..script.to {
        out.push_str(format!(in alloc; "value {value}\n")?.as_str())?;
        run_value(alloc, script, value_of(script, value), &mut out)?;
    }
    Ok(out)
}

fn tell_swept(alloc: Global, text: &str, out: &mut String) -> Result<(), Fault> {
    let lines = text.lines().count();
    let hash = encode(alloc, Sha256::digest(text.as_bytes()))?;
    out.push_str(format!(in alloc; "sweep {lines} {hash}\n")?.as_str())?;
    Ok(())
}

fn value_of(script: &Script, value: u64) -> Value {
    Value {
        varied: script.varied,
        value,
    }
}

// Runs a script by a value: the runs of `once` first, and then the connections.
fn run_value(alloc: Global, script: &Script, value: Value, out: &mut String) -> Result<(), Fault> {
    let mut cache = cache_of(alloc, value.of(Varied::Keeper).unwrap_or(script.keeper))?;
    for i in 0..script.clients.len() {
        if script.clients[i].single {
            cache = run_single_client(alloc, script, value, i, cache, out)?;
        }
    }
    match script.clients.iter().find(|client| !client.single) {
        Some(client) => run_connections(alloc, script, value, client.conf.as_str(), cache, out),
        None => Ok(()),
    }
}

fn cache_of(alloc: Global, fails: u64) -> Result<Cache, Fault> {
    if fails == NEVER {
        return Cache::new(alloc, &[]);
    }
    Cache::new(alloc, &[fails])
}

// The call of the link that fails, if it is the last client's and that is what varies.
fn link_of(alloc: Global, script: &Script, value: Value, i: usize) -> Result<Tap, Fault> {
    let client = client_at(script, i)?;
    let last = i.saturating_add(1) == script.clients.len();
    let fails = value.of(Varied::Link).filter(|_| last);
    Tap::new(alloc, client, fails)
}

fn client_at(script: &Script, i: usize) -> Result<&Client, Fault> {
    script.clients.get(i).ok_or(Fault::NotAScript)
}

// ---- runs of `once`

fn run_single_client(
    alloc: Global,
    script: &Script,
    value: Value,
    i: usize,
    cache: Cache,
    out: &mut String,
) -> Result<Cache, Fault> {
    let (mirror, right) = start(alloc, script, value.of(Varied::Front))?;
    let mut link = link_of(alloc, script, value, i)?;
    let client = client_at(script, i)?;
    let mut clock = clock_of(alloc, client)?;
    let conf = client.conf.as_str();
    let (ran, cache) = run_once(alloc, conf, cache, right, &mirror, &mut clock, &mut link)?;
    tell_ran(alloc, &ran, &link, &mirror, out)?;
    tell_written(alloc, value, link.written(), out)?;
    Ok(cache)
}

fn tell_ran(
    alloc: Global,
    ran: &Ran,
    link: &Tap,
    mirror: &Mirror,
    out: &mut String,
) -> Result<(), Fault> {
    let status = ran.status;
    let stop = ran.once.as_ref().map_or("Unopened", word_of);
    let reads = link.reads();
    let origins = mirror.reads();
    let line = format!(in alloc; "once {status} {stop}; read {reads}, origins {origins}\n")?;
    out.push_str(line.as_str())?;
    if let Some(once) = &ran.once {
        if let Some(note) = &once.note {
            out.push_str(note_line(alloc, note)?.as_str())?;
        }
    }
    Ok(())
}

fn word_of(once: &Once<CallSlip>) -> &'static str {
    once_word(once.stop)
}

// ---- connections

// The connections, which share one desk by the first one's configuration.
fn run_connections(
    alloc: Global,
    script: &Script,
    value: Value,
    conf: &str,
    cache: Cache,
    out: &mut String,
) -> Result<(), Fault> {
    let (mirror, right) = start(alloc, script, value.of(Varied::Front))?;
    let conf = conf_of(alloc, conf)?;
    match Shop::open(alloc, conf, cache, right, script.rows) {
        Ok(mut shop) => for i in 0..script.clients.len() {
            if !script.clients[i].single {
                run_connection(alloc, script, value, i, &mut shop, &mirror, out)?;
            }
        },
        Err(closed) => tell_closed(alloc, closed, out)?,
    }
    Ok(())
}

fn tell_closed(alloc: Global, closed: Closed, out: &mut String) -> Result<(), Fault> {
    let line = match closed {
        Closed::Keeper => format!(in alloc; "closed Keeper\n")?,
        Closed::TooMany { count } => format!(in alloc; "closed TooMany {count}\n")?,
        Closed::NoMemory => format!(in alloc; "closed NoMemory\n")?,
    };
    Ok(out.push_str(line.as_str())?)
}

fn run_connection(
    alloc: Global,
    script: &Script,
    value: Value,
    i: usize,
    shop: &mut Shop,
    mirror: &Mirror,
    out: &mut String,
) -> Result<(), Fault> {
    let mut link = link_of(alloc, script, value, i)?;
    let mut clock = clock_of(alloc, client_at(script, i)?)?;
    let end = shop.serve(alloc, mirror, &mut clock, &mut link);
    tell_end(alloc, &end, &link, mirror, out)?;
    tell_written(alloc, value, link.written(), out)
}

// How a connection ended, and its replies. A line that is the same as the one before it is counted.
fn tell_end(
    alloc: Global,
    end: &SessionEnd<CallSlip>,
    link: &Tap,
    mirror: &Mirror,
    out: &mut String,
) -> Result<(), Fault> {
    let stop = stop_word(end.stop);
    let reads = link.reads();
    let origins = mirror.reads();
    let line = format!(in alloc; "connection {stop}; read {reads}, origins {origins}\n")?;
    out.push_str(line.as_str())?;
    let mut last = String::new(alloc);
    let mut same = 0u64;
    for i in 0..end.notes.len() {
        let line = note_line(alloc, end.notes.get(i))?;
        if line.as_str() == last.as_str() {
            same = same.saturating_add(1);
        } else {
            tell_same(alloc, same, out)?;
            same = 0;
            out.push_str(line.as_str())?;
            last = line;
        }
    }
    tell_same(alloc, same, out)
}

fn tell_same(alloc: Global, same: u64, out: &mut String) -> Result<(), Fault> {
    if same > 0 {
        out.push_str(format!(in alloc; "and {same} the same\n")?.as_str())?;
    }
    Ok(())
}

// ---- what was written

fn tell_written(alloc: Global, value: Value, bytes: &[u8], out: &mut String) -> Result<(), Fault> {
    if bytes.len() <= MOST_TEXT && value.varied == Varied::Nothing {
        out.push_str(lines_of(alloc, bytes)?.as_str())?;
        return Ok(());
    }
    let hash = encode(alloc, Sha256::digest(bytes))?;
    let len = bytes.len();
    out.push_str(format!(in alloc; "bytes {len} {hash}\n")?.as_str())?;
    Ok(())
}
