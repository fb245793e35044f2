//! Downloads by scripts of a mirror. Standard input has the scripts, and standard output says what each made of the body, of
//! the tries and of the row.
//!
//! An empty line ends a script. Each of its lines is a word and what belongs to it, between single blanks:
//!
//! | line | meaning |
//! |---|---|
//! | `script NAME` | what the script shows |
//! | `conf LINE` | a line of the configuration |
//! | `volatile` | the file is asked for again once it is old; else it is kept for good |
//! | `cut N` | a read gives at most N bytes; else 4096 |
//! | `origin URL` | a further origin of the file |
//! | `answer FIRST LAST FROM URL ENDS TEXT` | what the attempts FIRST to LAST get that ask at URL from the place FROM |
//! | `ask MOMENT` | a further request for the file, at the moment |
//!
//! TEXT goes to the end of its line: `^` stands for CR LF, `|` for CR, `~` for LF, `_` for a blank, and `%` for a byte that no
//! text in UTF-8 has. Behind it the connection ends where ENDS is `end`, and fails where it is `slip`. An attempt that no line
//! answers fails at the dial.
//!
//! What is printed of a script: its name; for each request how the desk let it in, with the first try and what the row has of
//! a partial and of a whole body; each ask of the mirror, with the fields that it adds, and the bytes that were given before
//! each read of its connection; the body's end; how it was settled, and the whole body of the row.
#![tactic(auto)]

mod mirror;
mod run;
mod script;
mod told;

use acng_base::FileFault;
use std::alloc::Global;
use std::io;
use std::process::ExitCode;

fn main(rt: HostRuntime) -> ExitCode {
    match tell_all(&rt) {
        Ok(()) => ExitCode::SUCCESS,
        Err(FileFault::Failed) => ExitCode::from(1),
        Err(FileFault::NoMemory) => ExitCode::from(2),
    }
}

fn tell_all(rt: &HostRuntime) -> Result<(), FileFault> {
    let alloc = rt.alloc();
    let text = io::read_to_string(alloc, rt.reader())?;
    for part in text.as_str().trim_end().split("\n\n") {
        let told = tell(alloc, part)?;
        rt.print(told)?;
    }
    Ok(())
}

// What comes of one script.
fn tell(alloc: Global, text: &str) -> Result<String, FileFault> {
    let script = script::read(alloc, text)?;
    run::run(alloc, &script)
}
