//! A folder of transcripts.

ghost use Rattle.std.specs.Prelude.{◌≡◌, ◌++◌, IfOk, OnOk, None};
ghost use Rattle.expect_prog.specs.Folder.{number_text, transcript_path};

use crate::complaint::{Complaint, tell};
use crate::part::{Careful, Target, given};
use child_events::Counted;
use report_texts::write_all;
use script_runs::Shelf;
use std::alloc::{AllocError, Global};
use std::fs::{self, DirBuilder};
use std::io::{self, ErrorKind};
use std::os::unix::fs::DirBuilderExt;
use std::path::Path;
use std::rt::Files;
use tcl_words::{Text, Texts};

/// Writes transcripts, from any thread.
pub trait Pages {
    /// Writes a transcript to the file at a path, and replaces an earlier file. If that fails,
    /// prints the error on standard error and returns `false`.
    fn write_page(&self, path: &[u8], transcript: &[u8]) -> bool;
}

impl Pages for HostRuntime {
    fn write_page(&self, path: &[u8], transcript: &[u8]) -> bool {
        let path = std::str::from_utf8(path).unwrap_or("");
        match write_file(self, self.alloc(), path, transcript) {
            Ok(()) => true,
            Err(reason) => {
                tell(self, self.alloc(), &Complaint::NotWritten { path, reason });
                false
            }
        }
    }
}

/// A folder with a file for each transcript. An error in writing one is printed on standard error.
#[derive(Drop)]
pub struct Folder<R: Drop> {
    rt: R,
    /// The path of each file.
    paths: Texts,
    /// Whether all transcripts that were passed to it were written.
    is_whole: bool,
}

/// Appends the number of one of `count` scripts.
fn push_number(
    alloc: Global,
    text: &mut Text,
    count: usize,
    number: usize,
) -> Result<(), AllocError>
    ensures { OnOk result (text.new ≡ text.old ++ number_text count number) }
{
    let digits = number.to_string(alloc)?;
    if count > 9 && number < 10 {
        text.push(b'0')?;
    }
    text.extend(digits.as_bytes())
}

/// Returns the path in a folder for the transcript of script `number`, which has this name, among
/// `count` scripts.
#[tactic(auto, unfolding(crate::specs::Folder::transcript_path))]
fn path_of(
    alloc: Global,
    folder: &str,
    count: usize,
    number: usize,
    name: &str,
) -> Result<Text, AllocError>
    ensures { IfOk result (λ t. t ≡ transcript_path folder.now count number name.now) }
{
    let mut path = Text::new(alloc);
    path.extend(folder.as_bytes())?;
    path.push(b'/')?;
    push_number(alloc, &mut path, count, number)?;
    path.push(b'-')?;
    path.extend(Path::new(name).file_name().unwrap_or("").as_bytes())?;
    Ok(path)
}

/// Writes a transcript to a file. If the file is complete, it gets its name. Otherwise it is
/// removed.
fn write_file<R: Files>(rt: &R, alloc: Global, path: &str, transcript: &[u8]) -> io::Result<()> {
    let target = Target::page(rt, alloc, path)?;
    let mut out = Counted::new(Careful::new(target.create(rt)?));
    let written = match write_all(&mut out, transcript) {
        Ok(()) => given(rt, &target, out.device.whole()),
        Err(_) => Err(io::Error::from(ErrorKind::Other)),
    };
    if written.is_err() {
        target.remove(rt);
    }
    written
}

/// Creates a folder that only its owner may use, unless it exists.
fn make_folder<R: Files>(rt: &R, path: &str) -> io::Result<()> {
    let Err(e) = DirBuilder::new().mode(0o700).create(rt, path) else {
        return Ok(());
    };
    match fs::metadata(rt, path) {
        Ok(it) if it.is_dir() => Ok(()),
        _ => Err(e),
    }
}

/// Checks that a file can be created in the folder of `path`: creates the file's part and removes
/// it.
fn try_folder<R: Files>(rt: &R, alloc: Global, path: &str) -> io::Result<()> {
    let target = Target::page(rt, alloc, path)?;
    drop(target.create(rt)?);
    target.remove(rt);
    Ok(())
}

/// Returns the paths in a folder for the transcripts of scripts with these names.
pub fn paths_of(alloc: Global, folder: &str, names: &[Text]) -> Result<Texts, AllocError> {
    let mut paths = Texts::new(alloc);
    for at in 0..names.len() {
        let name = std::str::from_utf8(names[at].as_slice()).unwrap_or("");
        paths.push(path_of(alloc, folder, names.len(), at + 1, name)?)?;
    }
    Ok(paths)
}

impl<R: Pages + Drop> Folder<R> {
    /// Opens the folder at a path for transcripts with these paths, and creates it if it doesn't
    /// exist.
    pub fn new<'a>(
        rt: R,
        alloc: Global,
        path: &'a str,
        paths: Texts,
    ) -> Result<Folder<R>, Complaint<'a>>
    where
        R: Files,
    {
        if let Err(reason) = make_folder(&rt, path) {
            return Err(Complaint::NotWritten { path, reason });
        }
        for page in &paths.list {
            let page = std::str::from_utf8(page.as_slice()).unwrap_or("");
            if let Err(reason) = try_folder(&rt, alloc, page) {
                let path = page.to_string(alloc)?;
                return Err(Complaint::PageNotWritten { path, reason });
            }
        }
        Ok(Folder {
            rt,
            paths,
            is_whole: true,
        })
    }

    /// Writes the transcript of script `number`. Returns whether it was written.
    fn write(&self, number: usize, transcript: &[u8]) -> bool {
        match self.paths.as_slice().get(number.saturating_sub(1)) {
            Some(path) => self.rt.write_page(path.as_slice(), transcript),
            None => true,
        }
    }

    /// Returns whether all transcripts were written.
    pub fn is_whole(&self) -> bool {
        self.is_whole
    }
}

impl<R: Pages + Drop> Shelf for Folder<R> {
    ghost handed = { λ _. None };

    fn keep(&mut self, number: usize, transcript: &[u8]) {
        if !self.write(number, transcript) {
            self.is_whole = false;
        }
    }
}
