//! Secrets, and lists of secrets.

ghost use Rattle.std.specs.Prelude.{◌≡◌, ◌++◌, ◌∷◌, [], ◌==◌, length, IfOk, OnErr, OnOk};

use std::alloc::{AllocError, Global};
use std::marker::Model;
use tcl_words::Text;

/// A secret, and the name that stands in its place.
#[derive(Drop)]
pub struct Secret {
    pub name: Text,
    pub bytes: Text,
}

impl Secret {
    /// Returns a copy.
    fn copied(&self, alloc: Global) -> Result<Secret, AllocError>
        ensures { IfOk result (λ s. s ≡ self.now) }
    {
        Ok(Secret {
            name: self.name.copied(alloc)?,
            bytes: self.bytes.copied(alloc)?,
        })
    }
}

/// A list of secrets, in order. A contract sees a list.
#[derive(Drop)]
pub struct Secrets {
    /// The secrets, in order.
    pub list: Vec<Secret>,
}

impl Model for Secrets {
    ghost use Rattle.std.specs.Prelude.{List};
    ghost use Rattle.secret_words.specs.declared.secrets.Secret.{Secret};

    ghost Value = { List Secret };

    ghost view = { λ t. t.list.items };
}

impl Secrets {
    /// Creates an empty list without allocating.
    pub fn new(alloc: Global) -> Secrets
        ensures { result ≡ [] }
    {
        Secrets {
            list: Vec::new(alloc),
        }
    }

    /// Returns the secrets, in order.
    pub fn as_slice(&self) -> &[Secret]
        ensures { result.now ≡ self.now }
    {
        self.list.as_slice()
    }

    /// Returns whether there are none.
    pub fn is_empty(&self) -> bool
        ensures { result ≡ (length self.now == 0) }
    {
        self.list.len() == 0
    }

    /// Appends a secret. On `AllocError` the list is unchanged.
    pub fn push(&mut self, secret: Secret) -> Result<(), AllocError>
        ensures pushed { OnOk result (self.new ≡ self.old ++ secret ∷ []) }
        ensures kept { OnErr result (self.new ≡ self.old) }
    {
        self.list.push(secret)?;
        Ok(())
    }

    /// Returns a copy.
    pub fn copied(&self, alloc: Global) -> Result<Secrets, AllocError>
        ensures { IfOk result (λ s. s ≡ self.now) }
    {
        let mut made = Secrets::new(alloc);
        for secret in self.list.as_slice() {
            made.push(secret.copied(alloc)?)?;
        }
        Ok(made)
    }
}
