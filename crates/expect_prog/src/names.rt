//! The names of the files of an order, and the errors in them.

use crate::complaint::Complaint;
use crate::files::opened;
use crate::part::found;
use crate::secrets::file_of_secret;
use child_events::Counted;
use command_line::Scripts;
use product_files::{Entry, Found, Node, Way, clash, part_name, way_to};
use report_texts::read_all;
use std::alloc::{AllocError, Global};
use std::fs::{self, Metadata};
use std::io::Read;
use std::os::unix::fs::{FileTypeExt, MetadataExt};
use std::rt::Files;
use tcl_words::Text;

/// The use of a file in an order.
#[derive(Clone, Copy)]
pub enum Role {
    Script,
    /// The list of a script's rows.
    List,
    /// The file of a secret.
    Secret,
    Log,
    Record,
    Account,
    /// The folder of transcripts.
    Transcripts,
    Transcript,
}

impl Role {
    /// Returns the option that names the file.
    fn option(self) -> &'static str {
        match self {
            Role::Script => "a script",
            Role::List => "--each",
            Role::Secret => "--secret",
            Role::Log => "the log",
            Role::Record => "--record",
            Role::Account => "--explain",
            Role::Transcripts => "--transcripts",
            Role::Transcript => "--transcripts",
        }
    }
}

/// A name, as it is printed.
#[derive(Drop)]
struct Name {
    role: Role,
    path: String,
}

/// The names of the files of an order.
#[derive(Drop)]
pub struct Names {
    names: Vec<Name>,
    entries: Vec<Entry>,
}

/// Splits a path into its folder and its name.
fn folder_and_name(path: &str) -> (&str, &str) {
    let bytes = path.as_bytes();
    let mut at = 0;
    for i in 0..bytes.len() {
        if bytes[i] == b'/' {
            at = i + 1;
        }
    }
    let (folder, name) = (path.get(..at).unwrap_or(""), path.get(at..).unwrap_or(""));
    match folder {
        "" => (".", name),
        _ => (folder, name),
    }
}

fn node_of(found: &Metadata) -> Node {
    Node {
        device: found.dev(),
        inode: found.ino(),
    }
}

/// Returns the file that a name leads to. `None` if there is none, or for a character device, which
/// keeps no bytes.
fn file_behind<R: Files>(rt: &R, path: &str) -> Option<Node> {
    match fs::metadata(rt, path) {
        Ok(it) if !it.file_type().is_char_device() => Some(node_of(&it)),
        _ => None,
    }
}

/// Returns the file or link that has this name itself.
fn file_itself<R: Files>(rt: &R, path: &str) -> Option<Node> {
    match fs::symlink_metadata(rt, path) {
        Ok(it) => Some(node_of(&it)),
        Err(_) => None,
    }
}

impl Names {
    /// Creates an empty list of names.
    pub fn new(alloc: Global) -> Names {
        Names {
            names: Vec::new(alloc),
            entries: Vec::new(alloc),
        }
    }

    /// Creates the list of the files that an order's scripts are made from.
    pub fn of_scripts<R: Files>(
        rt: &R,
        alloc: Global,
        order: &Scripts<'_>,
    ) -> Result<Names, AllocError> {
        let mut names = Names::new(alloc);
        for path in &order.sources {
            names.push_read(rt, alloc, Role::Script, path)?;
        }
        if let Some(path) = order.each {
            names.push_read(rt, alloc, Role::List, path)?;
        }
        names.push_secrets(rt, alloc, order.variables.secrets.as_slice())?;
        Ok(names)
    }

    /// Adds the files of secrets, given the words of `--secret`.
    pub fn push_secrets<R: Files>(
        &mut self,
        rt: &R,
        alloc: Global,
        words: &[&str],
    ) -> Result<(), AllocError> {
        for word in words {
            self.push_read(rt, alloc, Role::Secret, file_of_secret(word))?;
        }
        Ok(())
    }

    /// Adds a name that belongs to an owner and leads to a file.
    fn push<R: Files>(
        &mut self,
        rt: &R,
        alloc: Global,
        owner: usize,
        role: Role,
        path: &str,
        is_replaced: bool,
        file: Option<Node>,
    ) -> Result<(), AllocError> {
        let (folder, name) = folder_and_name(path);
        self.names.push(Name {
            role,
            path: path.to_string(alloc)?,
        })?;
        self.entries.push(Entry {
            owner,
            is_replaced,
            file,
            folder: file_behind(rt, folder),
            name: Text::from_slice(alloc, name.as_bytes())?,
        })?;
        Ok(())
    }

    /// Adds the name of a file that is read.
    pub fn push_read<R: Files>(
        &mut self,
        rt: &R,
        alloc: Global,
        role: Role,
        path: &str,
    ) -> Result<(), AllocError> {
        let owner = self.entries.len();
        self.push(rt, alloc, owner, role, path, false, file_behind(rt, path))
    }

    /// Adds the names of a file that is replaced: its own name, and its name until it is complete.
    fn push_replaced<R: Files>(
        &mut self,
        rt: &R,
        alloc: Global,
        role: Role,
        path: &str,
    ) -> Result<(), AllocError> {
        let owner = self.entries.len();
        self.push(rt, alloc, owner, role, path, true, file_itself(rt, path))?;
        let part = part_name(alloc, path)?;
        let part = part.as_str();
        self.push(rt, alloc, owner, role, part, true, file_itself(rt, part))
    }

    /// Adds the names of a product that was requested by name. Several products may share a
    /// character device.
    pub fn push_product<R: Files>(
        &mut self,
        rt: &R,
        alloc: Global,
        role: Role,
        path: &str,
    ) -> Result<(), AllocError> {
        let found = found(rt, path).unwrap_or(Found::Nothing);
        if let Way::Beside = way_to(path.as_bytes(), found) {
            return self.push_replaced(rt, alloc, role, path);
        }
        if let Found::CharacterDevice = found {
            return Ok(());
        }
        let Some(file) = file_behind(rt, path) else {
            return Ok(());
        };
        let owner = self.entries.len();
        self.push(rt, alloc, owner, role, path, true, Some(file))
    }

    /// Adds the names of transcripts, and the name of their folder. The folder counts as replaced
    /// if it doesn't exist yet.
    pub fn push_transcripts<R: Files>(
        &mut self,
        rt: &R,
        alloc: Global,
        folder: &str,
        paths: &[Text],
    ) -> Result<(), AllocError> {
        let owner = self.entries.len();
        let there = file_itself(rt, folder);
        let is_made = there.is_none();
        self.push(rt, alloc, owner, Role::Transcripts, folder, is_made, there)?;
        for path in paths {
            let path = std::str::from_utf8(path.as_slice()).unwrap_or("");
            self.push_replaced(rt, alloc, Role::Transcript, path)?;
        }
        Ok(())
    }

    /// Returns the complaint for the first two names that clash, if any do.
    pub fn judged<'a>(&self, alloc: Global) -> Result<(), Complaint<'a>> {
        let Some((a, b)) = clash(self.entries.as_slice()) else {
            return Ok(());
        };
        let (Some(a), Some(b)) = (self.names.get(a), self.names.get(b)) else {
            return Ok(());
        };
        Err(Complaint::Clash(clash_text(alloc, a, b)?))
    }
}

/// Returns the line for two names that clash.
fn clash_text(alloc: Global, a: &Name, b: &Name) -> Result<String, AllocError> {
    let mut text = a.path.as_str().to_string(alloc)?;
    if a.path.as_str() != b.path.as_str() {
        text.push_str(" and ")?;
        text.push_str(b.path.as_str())?;
        text.push_str(" are one file: ")?;
        text.push_str(a.path.as_str())?;
    }
    match a.role {
        Role::Script => text.push_str(" is a script of this run and can't be written")?,
        Role::List => text.push_str(" is the list of this run and can't be written")?,
        Role::Secret => text.push_str(" is the file of a secret and can't be written")?,
        Role::Log => text.push_str(" is the log and can't be written")?,
        _ => {
            text.push_str(" is asked for twice: ")?;
            text.push_str(a.role.option())?;
            text.push_str(", ")?;
            text.push_str(b.role.option())?;
        }
    }
    Ok(text)
}

/// Returns whether a file is empty or begins with a text.
fn begins<'a, R: Files>(
    rt: &R,
    alloc: Global,
    path: &'a str,
    front: &[u8],
) -> Result<bool, Complaint<'a>> {
    let file = opened(rt, path)?;
    match read_all(alloc, &mut Counted::new(file.take(front.len() as u64))) {
        Ok(text) => Ok(text.len() == 0 || text.as_slice() == front),
        Err(_) => Err(Complaint::Unreadable(path)),
    }
}

/// Returns a complaint if the file with a product's name is not an earlier product, so that it
/// isn't replaced. A link may be replaced, unless it has the name of a script.
pub fn judge_old<'a, R: Files>(
    rt: &R,
    alloc: Global,
    path: &'a str,
    role: Role,
) -> Result<(), Complaint<'a>> {
    let is_script = path.ends_with(".exp");
    let (what, front): (&'static str, &[u8]) = match role {
        Role::Record => ("a record", b"exprun-log"),
        _ => ("an account", b"script 1"),
    };
    let is_old = match found(rt, path) {
        Ok(Found::File) => begins(rt, alloc, path, front)?,
        Ok(Found::Link) => !is_script,
        _ => true,
    };
    if is_old {
        return Ok(());
    }
    let option = role.option();
    if is_script {
        return Err(Complaint::ScriptNotReplaced { path, what, option });
    }
    Err(Complaint::NotReplaced { path, what, option })
}
