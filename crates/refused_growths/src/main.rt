//! `refused_growths CALL` makes public calls that take memory, and says by its status how that
//! went: 0 as with memory; 2 where one said that memory ran out, and what it left was right; 3
//! where it was said once more when the call was made again; 1 where something was wrong. Without a
//! word it makes all of them, and prints the names of those that went as with memory.
//!
//! It is run with growths of memory refused. Here are the calls that no command of the program
//! makes, and those of which a command shows too little.
#![tactic(auto)]

mod accounts;
mod asks;
mod closing;
mod driven;
mod outcome;
mod sharing;

use crate::outcome::{Course, Outcome};
use std::process::ExitCode;
use std::sync::Wait;
use std::{env, io};

/// What is tried.
#[derive(Clone, Copy)]
enum Trial {
    /// An account is asked by itself, and its history is checked.
    Account,
    /// An account under its lock is opened, asked and closed.
    Lock,
    /// A call is driven.
    Drive,
    /// A call of an account by itself is closed.
    CloseByAccount,
    /// The same under the lock.
    CloseByLock,
}

/// What is tried, by names.
const TRIALS: [(&str, Trial); 5] = [
    ("Account::apply", Trial::Account),
    ("SharedAccount::call", Trial::Lock),
    ("drive_call", Trial::Drive),
    ("closing/account", Trial::CloseByAccount),
    ("closing/lock", Trial::CloseByLock),
];

fn main(rt: HostRuntime) -> ExitCode {
    let course = match word(&rt) {
        Ok(Some(word)) => try_one(&rt, word.as_str()),
        Ok(None) => try_all(&rt),
        Err(_) => Ok(Outcome::Refused),
    };
    let outcome = match course {
        Ok(outcome) | Err(outcome) => outcome,
    };
    ExitCode::from(outcome as u8)
}

/// The word after the program's name.
fn word(rt: &HostRuntime) -> io::Result<Option<String>> {
    Ok(env::args(rt)?.nth(1))
}

/// Tries what has this name.
fn try_one<R: AllocGlobal + Wait>(rt: &R, word: &str) -> Course {
    for (name, trial) in &TRIALS {
        if *name == word {
            return try_it(rt, *trial);
        }
    }
    Err(Outcome::Wrong)
}

/// Tries all, and prints the names of what went as with memory.
fn try_all<R: AllocGlobal + Print + Wait>(rt: &R) -> Course {
    for (name, trial) in &TRIALS {
        if try_it(rt, *trial)? == Outcome::Answered {
            rt.println(*name)?;
        }
    }
    Ok(Outcome::Answered)
}

/// Tries one.
fn try_it<R: AllocGlobal + Wait>(rt: &R, trial: Trial) -> Course {
    let alloc = rt.alloc();
    match trial {
        Trial::Account => accounts::applies(alloc),
        Trial::Lock => sharing::asks(rt, alloc),
        Trial::Drive => driven::drives(alloc),
        Trial::CloseByAccount => accounts::closes_a_call(alloc),
        Trial::CloseByLock => sharing::closes_a_call(rt, alloc),
    }
}
