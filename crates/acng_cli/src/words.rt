//! The words of the command line: `COMMAND [NUMBER] [--conf FILE] [--cache DIR]`, as `clap` reads them.
ghost use Rattle.std.specs.Prelude.{◌≡◌, ◌≢◌, ◌≤◌, List, ℕ, [], Ok, Err, IfOk, IfErr, IfSome, map, option_map, codes, true};
ghost use Rattle.std.specs.List.{list_all};
ghost use Rattle.std.specs.Str.{is_utf8};
ghost use Rattle.clap.specs.Words.{app_of};
ghost use Rattle.acng_cli.specs.Words.{words_app, words_fault, word_of, words_of, number_of, numbered, named as named_by, plain as plain_of, with_number, command_in, or_default};

use acng_base::{NoMemory, Text};
use clap::Arg;
use clap::error::ErrorKind;
use std::alloc::{AllocError, Global};
use std::str;

// The greatest number of `gen`.
const MOST_NUMBER: i64 = 20_000;

/// What the program is asked to do.
#[derive(Clone, Copy, Debug, PartialEq, Eq)]
pub enum Command {
    Serve,
    Once,
    Expire,
    Import,
    Report,
    CheckConf,
    /// With a number from 1 to 20,000.
    Gen(u32),
}

/// The words that were read: the command, the configuration file and the cache folder.
#[derive(Debug, Drop)]
pub struct Words {
    pub command: Command,
    pub conf: Text,
    pub cache: Text,
}

/// Why words aren't read.
#[derive(Clone, Copy, Debug, PartialEq, Eq)]
pub enum WordsFault {
    NoMemory,
    /// A word isn't UTF-8, or the words have another form.
    NotRead,
    /// The first position names no command.
    NoCommand,
    /// `gen` stands without its number.
    NoNumber,
    /// A number stands at another command.
    StrayNumber,
}

// The values of the arguments, as they stand among the words.
#[derive(Clone, Copy, Debug)]
struct Given<'a> {
    command: Option<&'a str>,
    number: Option<&'a str>,
    conf: Option<&'a str>,
    cache: Option<&'a str>,
}

/// Reads the words after the program's name. The defaults are the file `acng.conf` and the folder `cache`.
pub fn read_words(alloc: Global, words: &[Text]) -> Result<Words, WordsFault>
    ensures read { IfOk result (λ read. words_of words.now ≡ Ok read) }
    ensures refused { IfErr result (λ fault. fault ≢ WordsFault.NoMemory → words_of words.now ≡ Err fault) }
{
    let texts = texts_of(alloc, words)?;
    let given = given_in(alloc, texts.as_slice())?;
    let command = command_in(given.command, number_in(given.number))?;
    let conf = or_default(alloc, given.conf, "acng.conf")?;
    let cache = or_default(alloc, given.cache, "cache")?;
    Ok(Words {
        command,
        conf,
        cache,
    })
}

// The words as texts. NotRead where one isn't UTF-8.
fn texts_of<'a>(alloc: Global, words: &'a [Text]) -> Result<Vec<&'a str>, WordsFault>
    ensures same { IfOk result (λ texts. map (λ s. s.now) texts.items ≡ words.entry.now) }
    ensures utf8 { IfOk result (λ texts. list_all is_utf8 words.entry.now ≡ true) }
    ensures refused { IfErr result (λ fault. fault ≢ WordsFault.NoMemory → words_of words.entry.now ≡ Err fault) }
{
    let mut texts = Vec::new(alloc);
    for word in words {
        let Ok(text) = str::from_utf8(word.as_bytes()) else {
            return Err(WordsFault::NotRead);
        };
        let Ok(()) = texts.push(text) else {
            return Err(WordsFault::NoMemory);
        };
    }
    Ok(texts)
}

// The form of the words.
fn form<'a>(alloc: Global) -> Result<clap::Command<'a>, AllocError>
    ensures { IfOk result (λ form. app_of form ≡ words_app) }
{
    let command = Arg::new(alloc, "COMMAND").required(true);
    let numbers = clap::value_parser!(u32).range(1..=MOST_NUMBER);
    let number = Arg::new(alloc, "NUMBER").value_parser(numbers);
    let conf = Arg::new(alloc, "conf").long("conf");
    let cache = Arg::new(alloc, "cache").long("cache");
    clap::Command::new(alloc, "acng")
        .no_binary_name(true)
        .arg(command)?
        .arg(number)?
        .arg(conf)?
        .arg(cache)
}

// What the words give each argument. NotRead where they haven't the form.
fn given_in<'a>(alloc: Global, words: &'a [&'a str]) -> Result<Given<'a>, WordsFault>
    ensures taken { IfOk result (λ _. words_fault (map (λ s. s.now) words.entry.now) ≡ []) }
    ensures command { IfOk result (λ g. option_map (λ s. s.now) g.command ≡ word_of (codes "COMMAND") (map (λ s. s.now) words.entry.now)) }
    ensures number { IfOk result (λ g. option_map (λ s. s.now) g.number ≡ word_of (codes "NUMBER") (map (λ s. s.now) words.entry.now)) }
    ensures conf { IfOk result (λ g. option_map (λ s. s.now) g.conf ≡ word_of (codes "conf") (map (λ s. s.now) words.entry.now)) }
    ensures cache { IfOk result (λ g. option_map (λ s. s.now) g.cache ≡ word_of (codes "cache") (map (λ s. s.now) words.entry.now)) }
    ensures refused { IfErr result (λ fault. fault ≢ WordsFault.NoMemory → words_of (map (λ s. s.now) words.entry.now) ≡ Err fault) }
{
    let Ok(form) = form(alloc) else {
        return Err(WordsFault::NoMemory);
    };
    match form.try_get_matches_from(words) {
        Ok(matches) => Ok(Given {
            command: matches.get_str("COMMAND"),
            number: matches.get_str("NUMBER"),
            conf: matches.get_str("conf"),
            cache: matches.get_str("cache"),
        }),
        Err(error) => match error.kind() {
            ErrorKind::OutOfMemory => Err(WordsFault::NoMemory),
            _ => Err(WordsFault::NotRead),
        },
    }
}

fn number_in(text: Option<&str>) -> Option<u32>
    ensures { result ≡ numbered (option_map (λ s. s.now) text.entry) }
{
    number_of(text?)
}

// The number from 1 to 20,000 that the text writes.
fn number_of(text: &str) -> Option<u32>
    ensures { result ≡ number_of text.now }
{
    let Ok(number) = text.parse::<i64>() else {
        return None;
    };
    if number < 1 || number > MOST_NUMBER {
        return None;
    }
    Some(number as u32)
}

fn command_in(name: Option<&str>, number: Option<u32>) -> Result<Command, WordsFault>
    ensures { result ≡ command_in (option_map (λ s. s.now) name.entry) number }
{
    let Some(name) = name else {
        return Err(WordsFault::NoCommand);
    };
    if name == "gen" {
        return with_number(number);
    }
    plain(named(name), number)
}

fn with_number(number: Option<u32>) -> Result<Command, WordsFault>
    ensures { result ≡ with_number number }
{
    match number {
        Some(number) => Ok(Command::Gen(number)),
        None => Err(WordsFault::NoNumber),
    }
}

// A command that takes no number.
fn plain(command: Option<Command>, number: Option<u32>) -> Result<Command, WordsFault>
    ensures { result ≡ plain_of command number }
{
    let Some(command) = command else {
        return Err(WordsFault::NoCommand);
    };
    match number {
        None => Ok(command),
        Some(_) => Err(WordsFault::StrayNumber),
    }
}

fn named(name: &str) -> Option<Command>
    ensures { result ≡ named_by name.now }
{
    match name {
        "serve" => Some(Command::Serve),
        "once" => Some(Command::Once),
        "expire" => Some(Command::Expire),
        "import" => Some(Command::Import),
        "report" => Some(Command::Report),
        "check-conf" => Some(Command::CheckConf),
        _ => None,
    }
}

fn or_default(alloc: Global, text: Option<&str>, default: &str) -> Result<Text, WordsFault>
    ensures own { IfOk result (λ own. own ≡ or_default default.now (option_map (λ s. s.now) text.entry)) }
    ensures refused { IfErr result (λ fault. fault ≡ WordsFault.NoMemory) }
{
    let text = match text {
        Some(text) => text,
        None => default,
    };
    match Text::copy(alloc, text.as_bytes()) {
        Ok(own) => Ok(own),
        Err(NoMemory) => Err(WordsFault::NoMemory),
    }
}
