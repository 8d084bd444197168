//! `prepaid`: prepaid call control on the command line. All of the work is done by `command`, over
//! any reader and writers: words and a text in, a text or a fault out. Here it gets the words,
//! standard input and the two outputs, and whether somebody sits at a terminal.
#![tactic(auto)]

mod answer;
mod ending;
mod faults;
mod files;
mod program;
mod running;
mod serving;
mod terminal;

use program::command;
use std::alloc::AllocError;
use std::io::{BufReader, ErrorKind, IsTerminal};
use std::process::ExitCode;
use std::{env, io};
use table_commands::{Fault, Noting};
use terminal::Terminal;

/// How many bytes of the input are read ahead: all that a pipe holds.
const READ_AHEAD: usize = 65_536;

/// The commands, each of which reads standard input.
const COMMANDS: [&str; 7] = ["price", "replay", "run", "audit", "quote", "rate", "serve"];

/// The words that may be in front of a command.
const FRONT: [&str; 2] = ["--explain", "--plain"];

/// The words that ask for the help of a command, or for the version.
const HELP: [&str; 4] = ["--help", "-h", "--version", "-V"];

/// What is said where the input comes from a terminal.
const WAITING: &str = "prepaid: the input comes from this terminal; Ctrl-D in a new line ends it";

fn main(rt: HostRuntime) -> ExitCode {
    let status = match (
        words(&rt),
        BufReader::with_capacity(rt.alloc(), READ_AHEAD, rt.reader()),
    ) {
        (Ok(words), Ok(input)) => {
            if rt.stdin().is_terminal()
                && rt.stderr().is_terminal()
                && ask_for_command(words.as_slice())
            {
                let _ = rt.eprintln(WAITING);
            }
            command(
                &rt,
                words.as_slice(),
                input,
                &mut Noting::new(io::writer(&rt)),
                &mut rt.stderr(),
                &Terminal::new(&rt, watches(&rt, words.as_slice())),
            )
        }
        (Err(fault), _) => refuse(&rt, fault),
        (_, Err(_)) => refuse(&rt, Fault::from(AllocError)),
    };
    ExitCode::from(status)
}

/// Prints a fault that comes before any command, and gives its status.
fn refuse(rt: &HostRuntime, fault: Fault) -> u8 {
    let _ = rt.eprintln(fault);
    fault.status()
}

/// The words after the program's name: `Arguments` where one isn't UTF-8. Where standard error is a
/// terminal, `--explain` is put in front of them, but for `--plain` or that word itself.
fn words(rt: &HostRuntime) -> Result<Vec<String>, Fault> {
    let alloc = rt.alloc();
    let args = match env::args(rt) {
        Ok(args) => args,
        Err(error) if error.kind() == ErrorKind::InvalidData => return Err(Fault::Arguments),
        Err(_) => return Err(Fault::from(AllocError)),
    };
    let mut words: Vec<String> = args.skip(1).collect(alloc)?;
    if rt.stderr().is_terminal() && !begins(&words, "--explain") && !begins(&words, "--plain") {
        words.insert(0, String::from_str(alloc, "--explain")?)?;
    }
    Ok(words)
}

/// Whether it is shown how far a run is: standard error is a terminal, and the words don't begin
/// with `--plain`.
fn watches(rt: &HostRuntime, words: &[String]) -> bool {
    !begins(words, "--plain") && rt.stderr().is_terminal()
}

/// Whether words begin with this one.
fn begins(words: &[String], first: &str) -> bool {
    words.first().is_some_and(|word| word.as_str() == first)
}

/// Whether words ask for a command, which waits for its input.
fn ask_for_command(words: &[String]) -> bool {
    for word in words {
        let word = word.as_str();
        if !FRONT.contains(&word) {
            return COMMANDS.contains(&word) && !ask_for_help(words);
        }
    }
    false
}

/// Whether words ask for the help of a command.
fn ask_for_help(words: &[String]) -> bool {
    words.iter().any(|word| HELP.contains(&word.as_str()))
}
