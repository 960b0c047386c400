//! Whole texts with names in place of secrets.

ghost use Rattle.std.specs.Prelude.{◌≡◌, ◌++◌, slice_get, IfOk, OnOk};
ghost use Rattle.secret_words.specs.Masking.{begins as begins_of, longer as longer_of, longest as longest_of, name_in, first_text, shown_at, hidden_behind as hidden_behind_of, masked as masked_of};

use crate::secrets::Secret;
use std::alloc::{AllocError, Global};
use tcl_words::Text;

/// A secret that a text begins with: its index in the list, and its length. The length is 0 if there
/// is none.
#[derive(Clone, Copy)]
pub struct Found {
    pub place: usize,
    pub size: usize,
}

/// Returns whether a text begins with these bytes.
#[tactic(auto, using(crate::proofs::Begins::starts_begins))]
pub(crate) fn begins(front: &[u8], text: &[u8]) -> bool
    ensures { result ≡ begins_of front.now text.now }
{
    text.starts_with(front)
}

/// Returns the secret with this index, if it is longer than the one found before, and the text
/// begins with it.
fn longer(text: &[u8], found: Found, place: usize, secret: &Secret) -> Found
    ensures { result ≡ longer_of text.now found place secret.now }
{
    let bytes = secret.bytes.as_slice();
    if found.size < bytes.len() && begins(bytes, text) {
        return Found {
            place,
            size: bytes.len(),
        };
    }
    found
}

/// Returns the longest secret that a text begins with.
fn longest(secrets: &[Secret], text: &[u8]) -> Found
    ensures { result ≡ longest_of secrets.now text.now }
{
    let mut found = Found { place: 0, size: 0 };
    for i in 0..secrets.len() {
        found = longer(text, found, i, &secrets[i]);
    }
    found
}

/// Returns the name of the secret with this index. Empty if there is none.
fn name_at(secrets: &[Secret], place: usize) -> &[u8]
    ensures { result.now ≡ name_in (slice_get secrets.now place) }
{
    match secrets.get(place) {
        Some(secret) => secret.name.as_slice(),
        None => b"",
    }
}

/// Appends what stands for the first byte of a text, given the longest secret there.
fn push_first(text: &mut Text, secrets: &[Secret], found: Found, byte: u8) -> Result<(), AllocError>
    ensures { OnOk result (text.new ≡ text.old ++ first_text secrets.now found byte) }
{
    if found.size == 0 {
        return text.push(byte);
    }
    text.extend(name_at(secrets, found.place))
}

/// Appends what stands for the first byte of a text. `left` bytes of the text still belong to a
/// secret. Returns how many bytes after the first one do.
pub(crate) fn push_shown(
    text: &mut Text,
    secrets: &[Secret],
    left: usize,
    byte: u8,
    bytes: &[u8],
) -> Result<usize, AllocError>
    ensures shown { IfOk result (λ n. text.new ≡ text.old ++ shown_at secrets.now left byte bytes.now) }
    ensures hidden { IfOk result (λ n. n ≡ hidden_behind_of secrets.now left bytes.now) }
{
    if left == 0 {
        let found = longest(secrets, bytes);
        push_first(text, secrets, found, byte)?;
        return Ok(found.size.saturating_sub(1));
    }
    Ok(left.saturating_sub(1))
}

/// Returns a text with a name in place of each secret.
pub fn masked(alloc: Global, secrets: &[Secret], bytes: &[u8]) -> Result<Text, AllocError>
    ensures { IfOk result (λ t. t ≡ masked_of secrets.now bytes.now) }
{
    let mut text = Text::new(alloc);
    let mut left: usize = 0;
    for i in 0..bytes.len() {
        left = push_shown(&mut text, secrets, left, bytes[i], &bytes[i..])?;
    }
    Ok(text)
}
