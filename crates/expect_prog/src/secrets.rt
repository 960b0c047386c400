//! The secrets of scripts, which are read from files.

ghost use Rattle.std.specs.Prelude.{◌≡◌, ◌<◌, ◌++◌, false, length, IfErr, IfOk, IsTrue, OnOk};
ghost use Rattle.expect_prog.specs.Secrets.{AreSecrets, FileLine, IsSecret, NameLine, file_of, gives_name, is_given_in, name_of, pairs_of, unended};

use crate::complaint::Complaint;
use crate::files::Sources;
use crate::variables::is_settable;
use secret_words::{Secret, Secrets};
use session::{Pairs, SOURCE_LIMIT};
use std::alloc::{AllocError, Global};
use tcl_words::Text;

/// Returns the file in a word of `--secret`: what follows the first `=`. Empty if there is none.
pub fn file_of_secret(word: &str) -> &str {
    match word.split_once('=') {
        Some((_, file)) => file,
        None => "",
    }
}

/// Returns bytes without one newline at their end: LF, or CR LF.
fn unended(bytes: &[u8]) -> &[u8]
    ensures { result.now ≡ unended bytes.now }
{
    match bytes.strip_suffix(b"\n") {
        Some(front) => front.strip_suffix(b"\r").unwrap_or(front),
        None => bytes,
    }
}

/// Returns whether one of the secrets has this name.
fn is_given(secrets: &[Secret], name: &[u8]) -> bool
    ensures { result ≡ is_given_in secrets.now name.now }
{
    secrets.iter().any(|secret| secret.name.as_slice() == name)
}

/// Returns NAME and FILE of a word of `--secret`, given the secrets of the words before it. Returns
/// the complaint for a word that sets no variable, or a name that was given before.
fn name_and_file<'a>(before: &[Secret], word: &'a str) -> Result<(&'a str, &'a str), Complaint<'a>>
    ensures parts { IfOk result (λ p. (p.0.now ≡ name_of word.now) × (p.1.now ≡ file_of word.now)) }
    ensures named { IfOk result (λ p. IsTrue (gives_name word.now) × (is_given_in before.now (name_of word.now) ≡ false)) }
    ensures refused { IfErr result (NameLine before.now word.entry) }
{
    let Some((name, file)) = word.split_once('=') else {
        return Err(Complaint::BadSecret(word));
    };
    if !is_settable(name.as_bytes()) {
        return Err(Complaint::BadSecret(word));
    }
    if is_given(before, name.as_bytes()) {
        return Err(Complaint::SecretAgain(word));
    }
    Ok((name, file))
}

/// Returns the secret in the bytes of the file at a path. `word` is the word of `--secret`. Returns
/// the complaint for a file that is too long or holds no secret.
fn secret_in<'a>(
    alloc: Global,
    word: &'a str,
    path: &'a str,
    file: &[u8],
) -> Result<Text, Complaint<'a>>
    ensures bytes { IfOk result (λ t. (t ≡ unended file.now) × (0 < length t)) }
    ensures refused { IfErr result (FileLine word.entry path.entry file.now) }
{
    if file.len() > SOURCE_LIMIT {
        return Err(Complaint::LongList(path));
    }
    let bytes = unended(file);
    if bytes.is_empty() {
        return Err(Complaint::EmptySecret(word));
    }
    Ok(Text::from_slice(alloc, bytes)?)
}

/// Reads the secret of a word of `--secret`, given those of the words before it.
fn secret_of<'a, S: Sources>(
    from: &S,
    alloc: Global,
    before: &[Secret],
    word: &'a str,
) -> Result<Secret, Complaint<'a>>
    ensures given { IfOk result (IsSecret S.holds word.now) }
    ensures anew { IfOk result (λ s. is_given_in before.now s.name ≡ false) }
{
    let (name, path) = name_and_file(before, word)?;
    let file = from.source(alloc, path)?;
    let bytes = secret_in(alloc, word, path, file.as_slice())?;
    Ok(Secret {
        name: Text::from_slice(alloc, name.as_bytes())?,
        bytes,
    })
}

/// Reads the secrets of the words of `--secret`, in order. Returns the complaint for the first word
/// that gives none.
pub fn secrets_given<'a, S: Sources>(
    from: &S,
    alloc: Global,
    words: &[&'a str],
) -> Result<Secrets, Complaint<'a>>
    ensures { IfOk result (AreSecrets S.holds words.now) }
{
    let mut secrets = Secrets::new(alloc);
    for word in words {
        let secret = secret_of(from, alloc, secrets.as_slice(), word)?;
        secrets.push(secret)?;
    }
    Ok(secrets)
}

/// Appends the variables that have secrets as their values.
pub fn push_secrets(alloc: Global, vars: &mut Pairs, secrets: &[Secret]) -> Result<(), AllocError>
    ensures { OnOk result (vars.new ≡ vars.old ++ pairs_of secrets.now) }
{
    for secret in secrets {
        vars.push(secret.name.copied(alloc)?, secret.bytes.copied(alloc)?)?;
    }
    Ok(())
}
