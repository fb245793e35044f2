//! The reading of a script.
use acng_base::{FileFault, Text, Texts};
use acng_site::Rule;
use std::alloc::Global;

/// A script.
#[derive(Drop)]
pub struct Script {
    pub name: String,
    pub conf: String,
    pub volatile: bool,
    pub cut: usize,
    pub origins: Texts,
    pub rules: Vec<Rule>,
    /// The moments of the requests.
    pub asks: Vec<u64>,
}

/// Reads a script.
pub fn read(alloc: Global, text: &str) -> Result<Script, FileFault> {
    let mut script = Script {
        name: String::new(alloc),
        conf: String::new(alloc),
        volatile: false,
        cut: 4096,
        origins: Texts::new(alloc),
        rules: Vec::new(alloc),
        asks: Vec::new(alloc),
    };
    for line in text.lines() {
        let (word, rest) = word_of(line);
        read_line(alloc, &mut script, word, rest)?;
    }
    Ok(script)
}

// The first word, and what follows it.
fn word_of(text: &str) -> (&str, &str) {
    match text.split_once(' ') {
        Some((word, rest)) => (word, rest),
        None => (text, ""),
    }
}

fn read_line(alloc: Global, script: &mut Script, word: &str, rest: &str) -> Result<(), FileFault> {
    match word {
        "script" => script.name.push_str(rest)?,
        "conf" => {
            script.conf.push_str(rest)?;
            script.conf.push('\n')?;
        }
        "volatile" => script.volatile = true,
        "cut" => script.cut = number(rest)? as usize,
        "origin" => script.origins.push(alloc, rest.as_bytes())?,
        "answer" => push_rule(alloc, &mut script.rules, rest)?,
        "ask" => push_number(&mut script.asks, number(rest)?)?,
        _ => return Err(FileFault::Failed),
    }
    Ok(())
}

fn number(word: &str) -> Result<u64, FileFault> {
    match word.parse::<u64>() {
        Ok(number) => Ok(number),
        Err(_) => Err(FileFault::Failed),
    }
}

fn push_number(numbers: &mut Vec<u64>, number: u64) -> Result<(), FileFault> {
    match numbers.push(number) {
        Ok(()) => Ok(()),
        Err(_) => Err(FileFault::NoMemory),
    }
}

fn push_rule(alloc: Global, rules: &mut Vec<Rule>, text: &str) -> Result<(), FileFault> {
    let rule = rule_of(alloc, text)?;
    match rules.push(rule) {
        Ok(()) => Ok(()),
        Err(_) => Err(FileFault::NoMemory),
    }
}

fn rule_of(alloc: Global, text: &str) -> Result<Rule, FileFault> {
    let (first, text) = word_of(text);
    let (last, text) = word_of(text);
    let (from, text) = word_of(text);
    let (url, text) = word_of(text);
    let (ends, text) = word_of(text);
    Ok(Rule {
        url: Text::copy(alloc, url.as_bytes())?,
        from: number(from)?,
        first: number(first)?,
        last: number(last)?,
        bytes: bytes_of(alloc, text)?,
        fault: ends == "slip",
    })
}

// The bytes that a text stands for.
fn bytes_of(alloc: Global, text: &str) -> Result<Text, FileFault> {
    let mut bytes = Vec::new(alloc);
    for byte in text.as_bytes() {
        push_byte(&mut bytes, *byte)?;
    }
    Ok(Text::of(bytes))
}

fn push_byte(bytes: &mut Vec<u8>, byte: u8) -> Result<(), FileFault> {
    let stands_for: &[u8] = match byte {
        b'^' => b"\r\n",
        b'|' => b"\r",
        b'~' => b"\n",
        b'_' => b" ",
        b'%' => b"\xff",
        _ => return push_plain(bytes, byte),
    };
    bytes.extend_from_slice(stands_for)?;
    Ok(())
}

fn push_plain(bytes: &mut Vec<u8>, byte: u8) -> Result<(), FileFault> {
    match bytes.push(byte) {
        Ok(()) => Ok(()),
        Err(_) => Err(FileFault::NoMemory),
    }
}
