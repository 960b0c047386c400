//! A cache of compiled patterns.

ghost use Rattle.std.specs.Prelude.{◌≡◌, true, IfErr, IfOk, IfSome};
ghost use Rattle.exp_match.specs.Scan.{is_pattern};
ghost use Rattle.exp_match.specs.Unbuilt.{IsOfRegular};

use crate::faults::RegularFault;
use crate::grammar::pattern_text;
use crate::regular::Regular;
use std::alloc::Global;
use std::marker::Model;

/// The most patterns in the cache.
const ROOM: usize = 32;

/// A cache of compiled regular patterns.
///
/// A contract sees nothing of it: results are the same with and without it.
#[derive(Drop)]
pub struct Compiled {
    /// At most `ROOM` patterns, the oldest first.
    list: Vec<Regular>,
}

impl Model for Compiled {
    ghost use Rattle.std.specs.Prelude.{⊤};

    ghost Value = { ⊤ };

    ghost view = { λ _. tt };
}

impl Compiled {
    /// Creates an empty cache without allocating.
    pub fn new(alloc: Global) -> Compiled {
        Compiled {
            list: Vec::new(alloc),
        }
    }

    /// Returns the pattern that a text writes, compiled or from the cache. With `nocase`, letters
    /// match in either case. With `lines`, `^` also holds after each newline and `$` before each.
    ///
    /// A new pattern goes into the cache, if memory allows. The characters of its text are
    /// allocated to test them.
    pub fn regular(
        &mut self,
        alloc: Global,
        text: &[u8],
        nocase: bool,
        lines: bool,
    ) -> Result<Regular, RegularFault>
        ensures pattern { IfOk result (λ _. is_pattern text.now ≡ true) }
        ensures built { IfOk result (λ r. r ≡ record { source = text.now; nocase = nocase; lines = lines }) }
        ensures fault { IfErr result (IsOfRegular (record { source = text.now; nocase = nocase; lines = lines })) }
    {
        if let Some(kept) = self.find(text, nocase, lines) {
            return Ok(kept.shared()?);
        }
        let Some(source) = pattern_text(alloc, text)? else {
            return Err(RegularFault::NoPattern);
        };
        self.compile(alloc, source, nocase, lines)
    }

    /// Returns the pattern with this text, case and anchors, if it is in the cache.
    fn find(&self, text: &[u8], nocase: bool, lines: bool) -> Option<&Regular>
        ensures { IfSome result (λ r. (is_pattern text.now ≡ true) × (r.now ≡ record { source = text.now; nocase = nocase; lines = lines })) }
    {
        'kept: for kept in self.list.iter() {
            if kept.is(text, nocase, lines) {
                return Some(kept);
            }
        }
        None
    }

    /// Adds a pattern to the cache, if memory allows. The oldest pattern makes room.
    fn keep(&mut self, regular: Regular) {
        if ROOM <= self.list.len() {
            drop(self.list.remove(0));
        }
        drop(self.list.push(regular));
    }

    /// Compiles a text of the grammar, and adds the pattern to the cache if memory allows.
    fn compile(
        &mut self,
        alloc: Global,
        source: &str,
        nocase: bool,
        lines: bool,
    ) -> Result<Regular, RegularFault>
        requires { is_pattern source.now ≡ true }
        ensures built { IfOk result (λ r. r ≡ record { source = source.now; nocase = nocase; lines = lines }) }
        ensures refused { IfErr result (IsOfRegular (record { source = source.now; nocase = nocase; lines = lines })) }
    {
        let regular = Regular::build(alloc, source, nocase, lines)?;
        if let Ok(kept) = regular.shared() {
            self.keep(kept);
        }
        Ok(regular)
    }
}
