//! Files that get their names once they are complete.

ghost use Rattle.std.specs.Prelude.{◌≡◌, length, Ok};

use crate::complaint::Complaint;
use child_hands::Clock;
use child_pipes::Wall;
use product_files::{Found, Way, page_way, part_name, way_to};
use std::alloc::Global;
use std::fs::{FileType, OpenFile, OpenOptions, Permissions};
use std::io::{self, ErrorKind, Write};
use std::os::unix::fs::{FileTypeExt, OpenOptionsExt, PermissionsExt};
use std::rt::Files;
use std::{fs, time};

/// The least time between two writes of a file's bytes to the disk, in milliseconds.
const SYNC: u64 = 1_000;

/// The mode of a file that is created: its owner may read and write it.
const MODE: u32 = 0o600;

/// Returns the kind of a file.
fn kind_of(kind: FileType) -> Found {
    if kind.is_symlink() {
        return Found::Link;
    }
    if kind.is_dir() {
        return Found::Folder;
    }
    if kind.is_fifo() {
        return Found::Fifo;
    }
    if kind.is_char_device() {
        return Found::CharacterDevice;
    }
    if kind.is_block_device() {
        return Found::BlockDevice;
    }
    if kind.is_socket() {
        return Found::Socket;
    }
    Found::File
}

/// Returns what has this name.
pub fn found<R: Files>(rt: &R, path: &str) -> io::Result<Found> {
    match fs::symlink_metadata(rt, path) {
        Ok(it) => Ok(kind_of(it.file_type())),
        Err(e) if e.kind() == ErrorKind::NotFound => Ok(Found::Nothing),
        Err(e) => Err(e),
    }
}

/// Opens a file that is written under its own name.
fn opened_directly<R: Files>(rt: &R, path: &str) -> io::Result<R::File> {
    OpenOptions::new().append(true).open(rt, path)
}

/// Creates a new file. A file that has the name is removed first, and never opened.
fn made_anew<R: Files>(rt: &R, path: &str) -> io::Result<R::File> {
    if let Err(e) = fs::remove_file(rt, path) {
        if e.kind() != ErrorKind::NotFound {
            return Err(e);
        }
    }
    let file = OpenOptions::new()
        .write(true)
        .create_new(true)
        .mode(MODE)
        .open(rt, path)?;
    // If it fails, the umask took more from the mode, which does no harm.
    let _ = file.set_permissions(Permissions::from_mode(MODE));
    Ok(file)
}

/// The name of a file to be written, and its name until it is complete. Without the latter, the
/// file is written under its own name.
#[derive(Drop)]
pub struct Target<'a> {
    path: &'a str,
    part: Option<String>,
}

/// Returns the target for a name that is written in this way.
fn target_of(alloc: Global, path: &str, way: Way) -> io::Result<Target<'_>> {
    match way {
        Way::Beside => Ok(Target {
            path,
            part: Some(part_name(alloc, path)?),
        }),
        Way::Directly => Ok(Target { path, part: None }),
        Way::Refused => Err(io::Error::from(ErrorKind::InvalidInput)),
    }
}

impl<'a> Target<'a> {
    /// Returns the target for a file that was requested by name. Refuses folders, sockets and block
    /// devices.
    pub fn asked<R: Files>(
        rt: &R,
        alloc: Global,
        path: &'a str,
    ) -> Result<Target<'a>, Complaint<'a>> {
        let found = match found(rt, path) {
            Ok(found) => found,
            Err(reason) => return Err(Complaint::NotWritten { path, reason }),
        };
        let way = way_to(path.as_bytes(), found);
        if let Way::Refused = way {
            let kind = match found {
                Found::Folder => "a folder",
                Found::Socket => "a socket",
                _ => "a block device",
            };
            return Err(Complaint::NoFile { path, kind });
        }
        match target_of(alloc, path, way) {
            Ok(target) => Ok(target),
            Err(_) => Err(Complaint::Memory),
        }
    }

    /// Returns the target for a file in a folder that was requested.
    pub fn page<R: Files>(rt: &R, alloc: Global, path: &'a str) -> io::Result<Target<'a>> {
        match page_way(found(rt, path)?) {
            Way::Refused => Err(io::Error::from(ErrorKind::IsADirectory)),
            way => target_of(alloc, path, way),
        }
    }

    /// Returns its own name.
    pub fn path(&self) -> &'a str {
        self.path
    }

    /// Returns whether it has another name until it is complete.
    pub fn has_part(&self) -> bool {
        self.part.is_some()
    }

    /// Opens the file, under the name that it has while it is written.
    pub fn create<R: Files>(&self, rt: &R) -> io::Result<R::File> {
        match &self.part {
            Some(part) => made_anew(rt, part.as_str()),
            None => opened_directly(rt, self.path),
        }
    }

    /// Gives a complete file its name, once its bytes are on the disk. Replaces an earlier file
    /// with that name.
    pub fn give<R: Files>(&self, rt: &R, file: &R::File) -> io::Result<()> {
        match &self.part {
            Some(part) => {
                file.sync_all()?;
                fs::rename(rt, part.as_str(), self.path)
            }
            None => Ok(()),
        }
    }

    /// Removes a file that doesn't get its name.
    pub fn remove<R: Files>(&self, rt: &R) {
        if let Some(part) = &self.part {
            let _ = fs::remove_file(rt, part.as_str());
        }
    }
}

/// A file that stores the error of its first failed write. From then on it discards bytes, so that
/// its writer can continue.
#[derive(Drop)]
pub struct Careful<F: Drop> {
    file: F,
    failed: Option<io::Error>,
}

impl<F: Drop> Careful<F> {
    /// Creates the state of a file to which nothing was written.
    pub fn new(file: F) -> Careful<F> {
        Careful { file, failed: None }
    }

    /// Returns the file, or the error of its first failed write.
    pub fn whole(&self) -> io::Result<&F> {
        match self.failed {
            Some(e) => Err(e),
            None => Ok(&self.file),
        }
    }

    /// Stores why bytes are not in the file, and returns their count as written.
    fn fail(&mut self, e: io::Error, bytes: &[u8]) -> io::Result<usize>
        ensures { result ≡ Ok (length bytes.now) }
    {
        self.failed = Some(e);
        Ok(bytes.len())
    }
}

impl<F: Write + Drop> Write for Careful<F> {
    fn write(&mut self, buf: &[u8]) -> io::Result<usize> {
        if self.failed.is_some() {
            return Ok(buf.len());
        }
        match self.file.write(buf) {
            Ok(0) if !buf.is_empty() => self.fail(io::Error::from(ErrorKind::WriteZero), buf),
            Ok(count) => Ok(count),
            Err(e) if e.kind() == ErrorKind::Interrupted => Err(e),
            Err(e) => self.fail(e, buf),
        }
    }

    fn flush(&mut self) -> io::Result<()> {
        Ok(())
    }
}

/// A file whose bytes are written to the disk about once a second while they arrive.
#[derive(Drop)]
pub struct SyncedFile<R: time::Clock + Drop, F: Drop> {
    file: Careful<F>,
    wall: Wall<R>,
    /// The moment at which its bytes were last written to the disk.
    synced: u64,
}

impl<R: time::Clock + Drop, F: Drop> SyncedFile<R, F> {
    /// Creates the state of a file to which nothing was written.
    pub fn new(rt: R, file: F) -> SyncedFile<R, F> {
        SyncedFile {
            file: Careful::new(file),
            wall: Wall::new(rt),
            synced: 0,
        }
    }

    /// Returns the file, or the error of its first failed write.
    pub fn whole(&self) -> io::Result<&F> {
        self.file.whole()
    }
}

impl<R: time::Clock + Drop, F: Write + OpenFile + Drop> Write for SyncedFile<R, F> {
    fn write(&mut self, buf: &[u8]) -> io::Result<usize> {
        let count = self.file.write(buf)?;
        let now = self.wall.now();
        if now >= self.synced.saturating_add(SYNC) {
            self.synced = now;
            // If the disk refuses it now, the error is reported once the file is complete.
            let _ = self.file.file.sync_data();
        }
        Ok(count)
    }

    fn flush(&mut self) -> io::Result<()> {
        self.file.flush()
    }
}

/// Gives a file its name if it is complete. Returns an error if it is not, or if it can't be
/// renamed.
pub fn given<R: Files>(rt: &R, target: &Target<'_>, whole: io::Result<&R::File>) -> io::Result<()> {
    target.give(rt, whole?)
}
