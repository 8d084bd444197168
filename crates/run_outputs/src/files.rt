//! Texts that are written into files of a folder, each whole.

ghost use Rattle.std.specs.Prelude.{OnOk};
ghost use Rattle.std.specs.Io.KnownBytes.{Appends};

use std::alloc::Global;
use std::fs::{self, File, OpenFile};
use std::io::{self, ErrorKind, Write};
use std::path::{Path, PathBuf};
use std::rt::Files;

/// Writes texts into files of the folder at this path, each given as its name and its text, and
/// each in the place of the file that had its name.
///
/// All of them are written first, the file `lines.txt` as `.lines.txt.new` and so on, and are on
/// the disk before the first gets its name. So where one can't be written, each file is as it was;
/// and where one can't have its name, it and those behind it are. No other name stays behind.
pub fn write_files<R: Files<File = File>>(
    rt: &R,
    alloc: Global,
    folder: &str,
    texts: &[(&str, &str)],
) -> io::Result<()> {
    if !fs::metadata(rt, folder)?.is_dir() {
        return Err(io::Error::from(ErrorKind::NotADirectory));
    }
    let mut files = Vec::new(alloc);
    write_new(rt, alloc, folder, texts, &mut files)?;
    rename_all(files.as_slice())
}

/// Writes texts into files of a folder, each under another name.
fn write_new<'a, R: Files<File = File>>(
    rt: &'a R,
    alloc: Global,
    folder: &str,
    texts: &[(&str, &str)],
    files: &mut Vec<NewFile<'a, R>>,
) -> io::Result<()> {
    for (name, text) in texts {
        files.push(NewFile::write(rt, alloc, folder, name, text)?)?;
    }
    Ok(())
}

/// Gives files their names, up to the first that can't have it.
fn rename_all<R: Files<File = File>>(files: &[NewFile<'_, R>]) -> io::Result<()> {
    for file in files {
        file.rename()?;
    }
    Ok(())
}

/// A file that was written under another name than it is to have. Where it doesn't get that, it is
/// removed.
struct NewFile<'a, R: Files<File = File>> {
    rt: &'a R,
    written: PathBuf,
    name: PathBuf,
}

impl<'a, R: Files<File = File>> NewFile<'a, R> {
    /// Writes a file under another name.
    fn write(
        rt: &'a R,
        alloc: Global,
        folder: &str,
        name: &str,
        text: &str,
    ) -> io::Result<NewFile<'a, R>> {
        let (written, name) = paths_of(alloc, folder, name)?;
        let mut file = File::create(rt, written.as_path())?;
        let new = NewFile { rt, written, name };
        write_whole(&mut file, text)?;
        Ok(new)
    }

    /// Gives the file its name.
    fn rename(&self) -> io::Result<()> {
        fs::rename(self.rt, self.written.as_path(), self.name.as_path())
    }
}

impl<R: Files<File = File>> Drop for NewFile<'_, R> {
    fn drop(self) {
        let NewFile {
            rt,
            written,
            name: _,
        } = self;
        let _ = fs::remove_file(rt, written.as_path());
    }
}

/// The paths of a file in a folder: that under which it is written, and that of its name.
fn paths_of(alloc: Global, folder: &str, name: &str) -> io::Result<(PathBuf, PathBuf)> {
    let mut other = String::new(alloc);
    write!(other, ".{name}.new")?;
    let folder = Path::new(folder);
    let name = folder.join(alloc, name)?;
    let written = folder.join(alloc, other.as_str())?;
    Ok((written, name))
}

/// Writes a text into a file, whose bytes are on the disk then.
fn write_whole<F: Write + OpenFile>(file: &mut F, text: &str) -> io::Result<()>
    ensures { OnOk result (Appends (F.contents file.old) (F.contents file.new) text.now) }
{
    file.write_all(text.as_bytes())?;
    file.sync_all()
}
