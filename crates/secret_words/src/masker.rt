//! Texts that come in pieces, with names in place of secrets.

ghost use Rattle.std.specs.Prelude.{◌≡◌, ◌≤◌, ◌++◌, ◌==◌, [], drop, length, not, is_some, IfOk, IfSome, OnErr};
ghost use Rattle.std.specs.List.{list_any};
ghost use Rattle.secret_words.specs.Masking.{masked as masked_of};
ghost use Rattle.secret_words.specs.Pieces.{is_front as is_front_of, waits as waits_of, given, held, PiecesAreWhole, HoldsLess, FreeIsUnchanged};

use crate::masking::{begins, masked, push_shown};
use crate::secrets::{Secret, Secrets};
use std::alloc::{AllocError, Global};
use tcl_words::Text;

/// Returns whether a secret begins with this text, and is longer.
fn is_front(text: &[u8], secret: &Secret) -> bool
    ensures { result ≡ is_front_of text.now secret.now }
{
    text.len() < secret.bytes.len() && begins(text, secret.bytes.as_slice())
}

/// Returns whether some secret begins with this text, and is longer.
fn is_front_of_any(text: &[u8], secrets: &[Secret]) -> bool
    ensures { result ≡ list_any (is_front_of text.now) secrets.now }
{
    secrets.iter().any(|secret| is_front(text, secret))
}

/// Returns whether a text may be the front of a secret. `left` of its bytes belong to a secret
/// that begins before it.
fn waits(secrets: &[Secret], left: usize, text: &[u8]) -> bool
    ensures { result ≡ waits_of secrets.now left text.now }
{
    left == 0 && is_front_of_any(text, secrets)
}

/// Appends what is given of a text. Returns the index at which the rest begins, which waits for more.
fn push_given(text: &mut Text, secrets: &[Secret], bytes: &[u8]) -> Result<usize, AllocError>
    ensures given { IfOk result (λ n. text.new ≡ text.old ++ given secrets.now bytes.now) }
    ensures held { IfOk result (λ n. drop n bytes.now ≡ held secrets.now bytes.now) }
    ensures within { IfOk result (λ n. n ≤ length bytes.now) }
{
    let mut left: usize = 0;
    for i in 0..bytes.len() {
        if waits(secrets, left, &bytes[i..]) {
            return Ok(i);
        }
        left = push_shown(text, secrets, left, bytes[i], &bytes[i..])?;
    }
    Ok(bytes.len())
}

/// Replaces secrets in a text that comes in pieces.
#[derive(Drop)]
pub struct Masker {
    pub secrets: Secrets,
    /// The end of the text so far. It waits for more, because it may be the front of a secret.
    pub held: Text,
}

impl Masker {
    /// Creates the state before the first piece.
    pub fn new(alloc: Global, secrets: Secrets) -> Masker
        ensures secrets { result.secrets ≡ secrets }
        ensures held { result.held ≡ [] }
    {
        Masker {
            secrets,
            held: Text::new(alloc),
        }
    }

    /// Takes a piece. Returns what is given of the held bytes and the piece. On `AllocError` the
    /// piece is not taken.
    pub fn take(&mut self, alloc: Global, piece: &[u8]) -> Result<Text, AllocError>
        ensures given { IfOk result (λ t. t ≡ given self.old.secrets (self.old.held ++ piece.now)) }
        ensures held { IfOk result (λ t. self.new.held ≡ held self.old.secrets (self.old.held ++ piece.now)) }
        ensures secrets { self.new.secrets ≡ self.old.secrets }
        ensures refused { OnErr result (self.new.held ≡ self.old.held) }
    {
        let mut bytes = self.held.copied(alloc)?;
        bytes.extend(piece)?;
        let mut text = Text::new(alloc);
        let at = push_given(&mut text, self.secrets.as_slice(), bytes.as_slice())?;
        self.held = Text::from_slice(alloc, &bytes.as_slice()[at..])?;
        Ok(text)
    }

    /// Takes the held bytes, because nothing comes after them. Returns them as they are shown. On
    /// `AllocError` they are still held.
    pub fn rest(&mut self, alloc: Global) -> Result<Text, AllocError>
        ensures rest { IfOk result (λ t. t ≡ masked_of self.old.secrets self.old.held) }
        ensures held { IfOk result (λ t. self.new.held ≡ []) }
        ensures secrets { self.new.secrets ≡ self.old.secrets }
        ensures refused { OnErr result (self.new.held ≡ self.old.held) }
    {
        let text = masked(alloc, self.secrets.as_slice(), self.held.as_slice())?;
        self.held = Text::new(alloc);
        Ok(text)
    }
}

/// Returns a masker before the first piece, or `None` if there are no secrets.
pub fn masker_of(alloc: Global, secrets: &Secrets) -> Result<Option<Masker>, AllocError>
    ensures none { IfOk result (λ m. is_some m ≡ not (length secrets.now == 0)) }
    ensures some { IfOk result (λ m. IfSome m (λ m. (m.secrets ≡ secrets.now) × (m.held ≡ []))) }
{
    if secrets.is_empty() {
        return Ok(None);
    }
    Ok(Some(Masker::new(alloc, secrets.copied(alloc)?)))
}

/// States what pieces give. What a masker gives of pieces, one after another, and its rest are the
/// whole text with a name in place of each secret. What it holds is shorter than a secret. The
/// function does nothing when it is called.
pub fn pieces_law()
    ensures whole { PiecesAreWhole }
    ensures less { HoldsLess }
{}

/// States that a text in which no secret occurs is unchanged. The function does nothing when it is
/// called.
pub fn unchanged_law()
    ensures { FreeIsUnchanged }
{}
