//! The reading of scripts.
use crate::escape::push_bytes;
use crate::fault::Fault;
use crate::script::{Answer, Client, Script, Varied, Ways};
use std::alloc::Global;
use std::str::Lines;

// What the bytes that follow belong to.
#[derive(Clone, Copy, PartialEq, Eq)]
enum Place {
    Nowhere,
    Answer,
    Client,
}

// A script that is being read.
#[derive(Drop)]
struct Reading {
    script: Script,
    ways: Ways,
    place: Place,
}

/// The script that comes next.
pub fn next_script(alloc: Global, lines: &mut Lines<'_>) -> Result<Option<Script>, Fault> {
    let Some(line) = lines.next() else {
        return Ok(None);
    };
    let Some(name) = line.strip_prefix("script ") else {
        return Err(Fault::NotAScript);
    };
    let mut reading = Reading {
        script: Script::new(alloc, name)?,
        ways: Ways::plain(),
        place: Place::Nowhere,
    };
    for line in lines {
        if line == "end" {
            return Ok(Some(reading.script));
        }
        reading.take(alloc, line)?;
    }
    Err(Fault::NotAScript)
}

fn number(text: &str) -> Result<u64, Fault> {
    text.parse::<u64>().map_err(|_| Fault::NotAScript)
}

fn count(text: &str) -> Result<usize, Fault> {
    text.parse::<usize>().map_err(|_| Fault::NotAScript)
}

impl Reading {
    // Takes a line.
    fn take(&mut self, alloc: Global, line: &str) -> Result<(), Fault> {
        if let Some(text) = line.strip_prefix('+') {
            return self.add(1, text);
        }
        if let Some(rest) = line.strip_prefix('*') {
            let (times, text) = rest.split_once(' ').ok_or(Fault::NotAScript)?;
            return self.add(number(times)?, text);
        }
        let (word, rest) = line.split_once(' ').ok_or(Fault::NotAScript)?;
        match word {
            "conf" => self.take_conf(rest),
            "answer" => self.take_answer(alloc, rest),
            "once" => self.take_client(alloc, true, rest),
            "connection" => self.take_client(alloc, false, rest),
            "vary" => self.take_varied(false, rest),
            "sweep" => self.take_varied(true, rest),
            _ => self.take_number(word, number(rest)?),
        }
    }

    fn take_conf(&mut self, line: &str) -> Result<(), Fault> {
        self.script.conf.push_str(line)?;
        self.script.conf.push('\n')?;
        Ok(())
    }

    fn take_number(&mut self, word: &str, number: u64) -> Result<(), Fault> {
        let count = usize::try_from(number).map_err(|_| Fault::NotAScript)?;
        match word {
            "rows" => self.script.rows = u32::try_from(number).map_err(|_| Fault::NotAScript)?,
            "next" => self.script.next = number,
            "pieces" => self.script.pieces = count,
            "keeper" => self.script.keeper = number,
            "cut" => self.ways.cut = count,
            "room" => self.ways.room = count,
            "link" => self.ways.fails = number,
            _ => return Err(Fault::NotAScript),
        }
        Ok(())
    }

    fn take_answer(&mut self, alloc: Global, rest: &str) -> Result<(), Fault> {
        let mut words = rest.split(' ');
        let url = words.next().ok_or(Fault::NotAScript)?;
        let from = number(words.next().ok_or(Fault::NotAScript)?)?;
        let first = number(words.next().ok_or(Fault::NotAScript)?)?;
        let last = number(words.next().ok_or(Fault::NotAScript)?)?;
        self.place = Place::Answer;
        self.script.answers.push(Answer {
            url: String::from_str(alloc, url)?,
            from,
            first,
            last,
            bytes: Vec::new(alloc),
            fault: words.next() == Some("fault"),
        })?;
        Ok(())
    }

    fn take_client(&mut self, alloc: Global, single: bool, rest: &str) -> Result<(), Fault> {
        let mut moments = Vec::new(alloc);
        for word in rest.split(' ') {
            moments.push(number(word)?)?;
        }
        self.place = Place::Client;
        let conf = String::from_str(alloc, self.script.conf.as_str())?;
        self.script.clients.push(Client {
            single,
            conf,
            moments,
            bytes: Vec::new(alloc),
            ways: self.ways,
        })?;
        Ok(())
    }

    fn take_varied(&mut self, swept: bool, rest: &str) -> Result<(), Fault> {
        let (word, rest) = rest.split_once(' ').ok_or(Fault::NotAScript)?;
        let (from, to) = rest.split_once(' ').ok_or(Fault::NotAScript)?;
        self.script.varied = match word {
            "nothing" => Varied::Nothing,
            "keeper" => Varied::Keeper,
            "link" => Varied::Link,
            "front" => Varied::Front,
            _ => return Err(Fault::NotAScript),
        };
        self.script.from = number(from)?;
        self.script.to = number(to)?;
        self.script.swept = swept;
        Ok(())
    }

    // Adds bytes to what they belong to.
    fn add(&mut self, times: u64, text: &str) -> Result<(), Fault> {
        for _ in 0..times {
            self.add_once(text)?;
        }
        Ok(())
    }

    fn add_once(&mut self, text: &str) -> Result<(), Fault> {
        match self.place {
            Place::Nowhere => Err(Fault::NotAScript),
            Place::Answer => match self.script.answers.last_mut() {
                Some(answer) => push_bytes(&mut answer.bytes, text),
                None => Err(Fault::NotAScript),
            },
            Place::Client => match self.script.clients.last_mut() {
                Some(client) => push_bytes(&mut client.bytes, text),
                None => Err(Fault::NotAScript),
            },
        }
    }
}
