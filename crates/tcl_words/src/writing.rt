//! Writes lists.

ghost use Rattle.std.specs.Prelude.{◌≡◌, ◌↔◌, ◌∷◌, Ok, Some, map, length, drop, ℕ, List, [], ◌++◌, ◌==◌, IfOk, OnOk, IsTrue};
ghost use Rattle.std.specs.List.{list_any};
ghost use Rattle.tcl_words.specs.Commands.{next_command};
ghost use Rattle.tcl_words.specs.ListCommand.{word_of};
ghost use Rattle.tcl_words.specs.ListRules.{IsList};
ghost use Rattle.tcl_words.specs.Lists.{is_special, needs_quoting, balances, fits_braces, letter, escape, written_element, written_rest, written, ReadsAs};

use crate::bytes::Text;
use crate::lists::is_white;
use crate::packed::Packed;
use crate::scan::begins_with;
use std::alloc::{AllocError, Global};

/// Returns whether a byte may not occur unquoted in a written element.
fn is_special(b: u8) -> bool
    ensures { result ≡ is_special b }
{
    is_white(b) || matches!(b, b'"' | b'{' | b'}' | b'[' | b']' | b'$' | b';' | b'\\')
}

/// Returns whether an element has a special byte. It checks every byte, so that several bytes can
/// be checked together. An element with a special byte is read as a whole anyway.
fn has_special(e: &[u8]) -> bool
    ensures { result ≡ list_any is_special e.now }
{
    let mut found = false;
    for b in e {
        found |= is_special(*b);
    }
    found
}

fn has_slash(e: &[u8]) -> bool
    ensures { result ≡ list_any (λ b. b == 92) e.now }
{
    e.iter().any(|b| *b == b'\\')
}

/// Returns whether an element can't be written as it is.
fn needs_quoting(first: bool, e: &[u8]) -> bool
    ensures { result ≡ needs_quoting first e.now }
{
    if e.is_empty() || has_special(e) {
        return true;
    }
    first && begins_with(b'#', e)
}

/// Returns true only if the bytes are the written form of the list with this one element.
pub fn stands_bare(e: &[u8]) -> bool
    ensures { IsTrue result → written (e.now ∷ []) ≡ e.now }
{
    !needs_quoting(true, e)
}

/// Returns whether the braces are balanced.
fn balances(e: &[u8]) -> bool
    ensures { result ≡ balances 0 e.now }
{
    let mut open: usize = 0;
    for b in e {
        if *b == b'}' {
            if open == 0 {
                return false;
            }
            open -= 1;
        } else if *b == b'{' {
            open += 1;
        }
    }
    open == 0
}

/// Returns whether an element can be written in braces.
fn fits_braces(e: &[u8]) -> bool
    ensures { result ≡ fits_braces e.now }
{
    !has_slash(e) && balances(e)
}

/// Returns the letter that follows the backslash of an escaped byte.
fn letter(b: u8) -> u8
    ensures { result ≡ letter b }
{
    match b {
        b'\t' => b't',
        b'\n' => b'n',
        0x0b => b'v',
        0x0c => b'f',
        b'\r' => b'r',
        _ => b,
    }
}

/// Appends an element with each special byte escaped.
fn push_escaped(out: &mut Vec<u8>, e: &[u8]) -> Result<(), AllocError>
    ensures { OnOk result (out.new.items ≡ out.old.items ++ escape e.now) }
{
    for b in e {
        if is_special(*b) {
            out.push(b'\\')?;
            out.push(letter(*b))?;
        } else {
            out.push(*b)?;
        }
    }
    Ok(())
}

/// Appends a written element.
fn push_element(out: &mut Vec<u8>, first: bool, e: &[u8]) -> Result<(), AllocError>
    ensures { OnOk result (out.new.items ≡ out.old.items ++ written_element first e.now) }
{
    if !needs_quoting(first, e) {
        out.extend_from_slice(e)?;
        return Ok(());
    }
    if fits_braces(e) {
        out.push(b'{')?;
        out.extend_from_slice(e)?;
        out.push(b'}')?;
        return Ok(());
    }
    if first && begins_with(b'#', e) {
        out.push(b'\\')?;
    }
    push_escaped(out, e)
}

/// Appends the written elements from an index on, each with a space before it.
fn push_from(out: &mut Vec<u8>, list: &Packed, from: usize) -> Result<(), AllocError>
    ensures { OnOk result (out.new.items ≡ out.old.items ++ written_rest (drop from list.now)) }
{
    for index in from..list.len() {
        out.push(b' ')?;
        push_element(out, false, list.at(index))?;
    }
    Ok(())
}

/// Writes a list as text. Reading the text gives the list.
pub fn write_list(alloc: Global, list: &Packed) -> Result<Text, AllocError>
    ensures { IfOk result (λ t. t ≡ written list.now) }
{
    let mut out = Vec::new(alloc);
    if let Some(first) = list.get(0) {
        push_element(&mut out, true, first)?;
        push_from(&mut out, list, 1)?;
    }
    Ok(Text { bytes: out })
}

/// Returns the text to append to a written, non-empty list in order to add these elements: each has
/// a space before it.
pub fn write_behind(alloc: Global, list: &Packed) -> Result<Text, AllocError>
    ensures { IfOk result (λ t. t ≡ written_rest list.now) }
{
    let mut out = Vec::new(alloc);
    push_from(&mut out, list, 0)?;
    Ok(Text { bytes: out })
}

/// States laws: a written list reads as that list, and a text reads as at most one list. It does
/// nothing at run time.
pub fn one_list()
    ensures round { (l : List (List ℕ)) → ReadsAs (written l) l }
    ensures one { (text : List ℕ) (l m : List (List ℕ)) → ReadsAs text l → ReadsAs text m → l ≡ m }
{}

/// States a law: the elements of a text are those that the rules of lists give. It does nothing at
/// run time.
pub fn list_rules()
    ensures { (text : List ℕ) (l : List (List ℕ)) → ReadsAs text l ↔ IsList text l }
{}

/// States a law: a written list with at least one element is a command whose words are the
/// elements. It does nothing at run time.
pub fn list_is_command()
    ensures { (e : List ℕ) (es : List (List ℕ)) → next_command (written (e ∷ es)) 0
        ≡ Ok (Some (map word_of (e ∷ es), length (written (e ∷ es)))) }
{}
