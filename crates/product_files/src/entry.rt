//! The names of a run's files, and which of them clash.

ghost use Rattle.std.specs.Prelude.{◌↔◌, ◌<◌, IsTrue, MatchOption, length};
ghost use Rattle.product_files.specs.Entry.{SameFile, Clash, ClashAt, NoneBefore, NoneBelow, IsFirstClash};

use tcl_words::Text;

/// The identity of a file, whatever its names are.
#[derive(Clone, Copy)]
pub struct Node {
    pub device: u64,
    pub inode: u64,
}

/// A name of a file that a run reads or replaces.
#[derive(Drop)]
pub struct Entry {
    /// The number of the owner. A product's name and its `.part` name have the same number, and
    /// never clash.
    pub owner: usize,
    /// Whether the run replaces the file with this name.
    pub is_replaced: bool,
    /// The file with this name, if there is one.
    pub file: Option<Node>,
    /// The folder that contains the name, if it exists.
    pub folder: Option<Node>,
    /// The name in its folder.
    pub name: Text,
}

/// Returns whether both files exist and are the same file.
fn is_same_file(a: Option<Node>, b: Option<Node>) -> bool
    ensures { IsTrue result ↔ SameFile a b }
{
    match (a, b) {
        (Some(a), Some(b)) => a.device == b.device && a.inode == b.inode,
        _ => false,
    }
}

/// Returns whether two names can't both be used.
fn clashes(a: &Entry, b: &Entry) -> bool
    ensures { IsTrue result ↔ Clash a.now b.now }
{
    if a.owner == b.owner || !(a.is_replaced || b.is_replaced) {
        return false;
    }
    is_same_file(a.file, b.file) || (is_same_file(a.folder, b.folder) && a.name.is_same(&b.name))
}

/// Returns whether the names at two indices clash.
fn clashes_at(entries: &[Entry], i: usize, j: usize) -> bool
    ensures { IsTrue result ↔ ClashAt entries.now i j }
{
    match (entries.get(i), entries.get(j)) {
        (Some(a), Some(b)) => clashes(a, b),
        _ => false,
    }
}

/// Returns the index of the first name before `at` that clashes with the one at `at`.
fn earlier(entries: &[Entry], at: usize) -> Option<usize>
    ensures { MatchOption result (NoneBelow entries.now at at) (λ i. (i < at) × (NoneBelow entries.now at i) × ClashAt entries.now i at) }
{
    for i in 0..at {
        if clashes_at(entries, i, at) {
            return Some(i);
        }
    }
    None
}

/// Returns the indices of the first two names that clash: the least index whose name clashes with
/// an earlier one, preceded by the first such earlier one. `None` if no names clash.
pub fn clash(entries: &[Entry]) -> Option<(usize, usize)>
    ensures { MatchOption result (NoneBefore entries.now (length entries.now)) (λ p. IsFirstClash entries.now p.0 p.1) }
{
    for at in 0..entries.len() {
        if let Some(i) = earlier(entries, at) {
            return Some((i, at));
        }
    }
    None
}
