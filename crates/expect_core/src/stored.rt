//! The variables that commands of Expect set (expect(1)).

ghost use Rattle.std.specs.Prelude.{◌≡◌, ◌<◌, ◌++◌, ◌∷◌, [], codes, OnOk};
ghost use Rattle.std.specs.Fmt.{decimal};
ghost use Rattle.expect_core.specs.Expecting.{with_index};

use std::alloc::{AllocError, Global};
use std::marker::Model;
use tcl_values::Value;

/// The element of `expect_out` for the spawn id of the child that matched.
pub(crate) const ID: &[u8] = b"expect_out(spawn_id)";

/// The element of `expect_out` for the bytes up to the end of the match.
pub(crate) const BUFFER: &[u8] = b"expect_out(buffer)";

/// Returns the element of `expect_out` for the index of a group's first byte.
pub(crate) fn start_name(group: usize) -> &'static [u8]
    requires { group < 10 }
    ensures { result.now ≡ with_index (decimal group ++ codes ",start") }
{
    match group {
        0 => b"expect_out(0,start)",
        1 => b"expect_out(1,start)",
        2 => b"expect_out(2,start)",
        3 => b"expect_out(3,start)",
        4 => b"expect_out(4,start)",
        5 => b"expect_out(5,start)",
        6 => b"expect_out(6,start)",
        7 => b"expect_out(7,start)",
        8 => b"expect_out(8,start)",
        _ => b"expect_out(9,start)",
    }
}

/// Returns the element of `expect_out` for the index of a group's last byte.
pub(crate) fn end_name(group: usize) -> &'static [u8]
    requires { group < 10 }
    ensures { result.now ≡ with_index (decimal group ++ codes ",end") }
{
    match group {
        0 => b"expect_out(0,end)",
        1 => b"expect_out(1,end)",
        2 => b"expect_out(2,end)",
        3 => b"expect_out(3,end)",
        4 => b"expect_out(4,end)",
        5 => b"expect_out(5,end)",
        6 => b"expect_out(6,end)",
        7 => b"expect_out(7,end)",
        8 => b"expect_out(8,end)",
        _ => b"expect_out(9,end)",
    }
}

/// Returns the element of `expect_out` for the bytes of a group.
pub(crate) fn string_name(group: usize) -> &'static [u8]
    requires { group < 10 }
    ensures { result.now ≡ with_index (decimal group ++ codes ",string") }
{
    match group {
        0 => b"expect_out(0,string)",
        1 => b"expect_out(1,string)",
        2 => b"expect_out(2,string)",
        3 => b"expect_out(3,string)",
        4 => b"expect_out(4,string)",
        5 => b"expect_out(5,string)",
        6 => b"expect_out(6,string)",
        7 => b"expect_out(7,string)",
        8 => b"expect_out(8,string)",
        _ => b"expect_out(9,string)",
    }
}

/// Names with their values, in the order in which they are set. A contract sees a list of pairs.
#[derive(Drop)]
pub(crate) struct Stores {
    pub(crate) list: Vec<(&'static [u8], Value)>,
}

impl Model for Stores {
    ghost use Rattle.std.specs.Prelude.{List, ℕ, map};

    ghost Value = { List (List ℕ × List ℕ) };

    ghost view = { λ t. map (λ p. (p.0.now, p.1)) t.list.items };
}

impl Stores {
    /// Creates an empty list without allocating.
    pub(crate) fn new(alloc: Global) -> Stores
        ensures { result ≡ [] }
    {
        Stores {
            list: Vec::new(alloc),
        }
    }

    /// Appends a name with its value.
    pub(crate) fn push(&mut self, name: &'static [u8], value: Value) -> Result<(), AllocError>
        ensures { OnOk result (self.new ≡ self.old ++ (name.now, value) ∷ []) }
    {
        self.list.push((name, value))?;
        Ok(())
    }
}
