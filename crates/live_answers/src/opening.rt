//! A log file, as a live run begins with it.

ghost use Rattle.std.specs.Prelude.{◌≡◌, IfOk};
ghost use Rattle.live_answers.specs.LogHeads.{log_head};

use crate::synced::Synced;
use crate::{Found, find_lines};
use dialogue_core::ServiceConfig;
use run_values::LogFault;
use std::alloc::{AllocError, Global};
use std::fs;
use std::fs::File;
use std::io::{self, Error, ErrorKind, Read, Write};
use std::path::Path;
use std::rt::Files;

/// A log that is open, and that no other process has.
#[derive(Drop)]
pub(crate) struct OpenLog {
    /// The file, which ends with the last of its whole lines, and grows behind it.
    pub file: Synced<File>,
    /// The lines behind its head.
    pub lines: Vec<u8>,
}

/// The head of a log: a line `log,1,WANTED,LEAST,TCCD` with what the service asks an account for,
/// in units of 100 ms, and behind it what the input has in front of its first message: the tariff,
/// the setup and the header of the messages.
pub fn log_head(alloc: Global, service: ServiceConfig, input: &[u8]) -> Result<Vec<u8>, AllocError>
    ensures { IfOk result (λ head. head.items ≡ log_head service input.now) }
{
    let mut line = String::new(alloc);
    let ServiceConfig {
        wanted,
        least,
        tccd,
    } = service;
    writeln!(line, "log,1,{wanted},{least},{tccd}")?;
    let mut head = Vec::new(alloc);
    head.extend_from_slice(line.as_bytes())?;
    head.extend_from_slice(input)?;
    Ok(head)
}

/// Opens the log at a path, or begins it where there is none: `head` is what it has to begin with.
/// The file is locked as long as it is open, its torn end is cut off, and what is left of it is on
/// the disk.
///
/// The fault is `Other` where it begins otherwise; `OutOfMemory`; else `Device`, also where it is
/// no plain file, or another process has locked it.
pub(crate) fn open_log<R: Files<File = File>>(
    rt: &R,
    alloc: Global,
    path: &str,
    head: &[u8],
) -> Result<OpenLog, LogFault> {
    let mut file = lock_log(rt, path)?;
    let lines = take_lines(alloc, &mut file, head)?;
    file.sync_all()?;
    // A start that was killed may have made the file and not have come so far.
    sync_folder(rt, path)?;
    Ok(OpenLog {
        file: Synced(file),
        lines,
    })
}

/// Opens the file of a log, or makes it where there is none, and locks it. The error has the kind
/// `NotSeekable` where it is no plain file, and `WouldBlock` where another process has locked it.
pub fn lock_log<R: Files<File = File>>(rt: &R, path: &str) -> io::Result<File> {
    let file = File::options()
        .read(true)
        .append(true)
        .create(true)
        .open(rt, path)?;
    if !file.metadata()?.is_file() {
        return Err(Error::from(ErrorKind::NotSeekable));
    }
    file.try_lock()?;
    Ok(file)
}

/// The lines that a log holds behind its head. A torn last line is cut off, and a log whose head is
/// torn is begun anew, so that the file ends with these lines.
fn take_lines(alloc: Global, file: &mut File, head: &[u8]) -> Result<Vec<u8>, LogFault> {
    let mut text = read_log(alloc, file, head)?;
    match find_lines(text.as_slice(), head) {
        Found::Lines(lines) => {
            let end = head.len() + lines.len();
            text.truncate(end);
            text.drain(..head.len());
            file.set_len(end as u64)?;
        }
        Found::Begun => {
            text.clear();
            file.set_len(0)?;
            file.write_all(head)?;
        }
        Found::Other => return Err(LogFault::Other),
    }
    Ok(text)
}

/// What a log holds; no more than the length of its head where it begins otherwise.
fn read_log(alloc: Global, file: &mut File, head: &[u8]) -> Result<Vec<u8>, LogFault> {
    let mut text = Vec::new(alloc);
    Read::by_ref(file)
        .take(head.len() as u64)
        .read_to_end(&mut text)?;
    if text.as_slice() == head {
        file.read_to_end(&mut text)?;
    }
    Ok(text)
}

/// Puts the name of a file on the disk.
fn sync_folder<R: Files<File = File>>(rt: &R, path: &str) -> io::Result<()> {
    let folder = match Path::new(path).parent() {
        Some(folder) if !folder.as_str().is_empty() => folder,
        _ => Path::new("."),
    };
    fs::open(rt, folder)?.sync_all()
}
