//! The settings of a script.

ghost use Rattle.std.specs.Prelude.{◌≡◌, ◌++◌, ◌∷◌, [], IfOk, OnOk, OnErr};

use std::alloc::{AllocError, Global};
use std::marker::Model;
use tcl_words::Text;

/// Names with their values, in order. A contract sees a list of pairs of byte lists.
#[derive(Drop)]
pub struct Pairs {
    /// The pairs, in order.
    pub list: Vec<(Text, Text)>,
}

impl Model for Pairs {
    ghost use Rattle.std.specs.Prelude.{List, ℕ};

    ghost Value = { List (List ℕ × List ℕ) };

    ghost view = { λ t. t.list.items };
}

impl Pairs {
    /// Creates an empty list without allocating.
    pub fn new(alloc: Global) -> Pairs
        ensures { result ≡ [] }
    {
        Pairs {
            list: Vec::new(alloc),
        }
    }

    /// Returns the pairs, in order.
    pub fn as_slice(&self) -> &[(Text, Text)]
        ensures { result.now ≡ self.now }
    {
        self.list.as_slice()
    }

    /// Appends a name with its value. On `AllocError` the list is unchanged.
    pub fn push(&mut self, name: Text, value: Text) -> Result<(), AllocError>
        ensures pushed { OnOk result (self.new ≡ self.old ++ (name, value) ∷ []) }
        ensures kept { OnErr result (self.new ≡ self.old) }
    {
        self.list.push((name, value))?;
        Ok(())
    }

    /// Returns a copy.
    pub fn copied(&self, alloc: Global) -> Result<Pairs, AllocError>
        ensures { IfOk result (λ p. p ≡ self.now) }
    {
        let mut made = Pairs::new(alloc);
        for pair in self.list.as_slice() {
            made.push(pair.0.copied(alloc)?, pair.1.copied(alloc)?)?;
        }
        Ok(made)
    }
}

/// The limits of a script, and its variables at the start.
#[derive(Drop)]
pub struct Settings {
    /// The most steps, from 1 to 1,000,000,000,000. A greater number counts as that.
    pub steps: u64,
    /// The last moment in milliseconds, from 1 to 9,000,000,000,000. `None` is no time limit.
    pub limit_ms: Option<u64>,
    /// The variables that are set at the start, in order. A name may be that of an element. If it
    /// occurs twice, the last value counts.
    pub vars: Pairs,
    /// Whether the script's report lists its variables. If not, none of them is copied for it.
    pub tells_vars: bool,
    /// Whether a `spawn` without `-notty` runs its program on a terminal of the system.
    pub host: bool,
}

impl Settings {
    /// Returns a copy.
    pub fn copied(&self, alloc: Global) -> Result<Settings, AllocError>
        ensures { IfOk result (λ s. s ≡ self.now) }
    {
        Ok(Settings {
            steps: self.steps,
            limit_ms: self.limit_ms,
            vars: self.vars.copied(alloc)?,
            tells_vars: self.tells_vars,
            host: self.host,
        })
    }
}
