//! Reads the calls of a layer from standard input.

use crate::complaint::Complaint;
use std::alloc::{AllocError, Global};
use std::str::{self, FromStr};
use tcl_words::{Text, Texts, read_list};

/// Appends a call. A line without words is not a call.
fn put(calls: &mut Vec<Vec<Text>>, words: Vec<Text>) -> Result<(), AllocError> {
    if words.len() > 0 {
        calls.push(words)?;
    }
    Ok(())
}

/// Returns the words of a line.
pub fn words_of(alloc: Global, line: &[u8]) -> Result<Vec<Text>, Complaint> {
    let Texts { list: words } = read_list(alloc, line)?.texts(alloc)?;
    Ok(words)
}

/// Returns the lines of a text, each read as a list of words.
pub fn calls(alloc: Global, src: &[u8]) -> Result<Vec<Vec<Text>>, Complaint> {
    let mut calls = Vec::new(alloc);
    'lines: for line in src.split(|b| *b == b'\n') {
        put(&mut calls, words_of(alloc, line)?)?;
    }
    Ok(calls)
}

/// Returns a word as the name of a call. Returns the empty name if the word isn't UTF-8.
pub fn name_in(word: &[u8]) -> &str {
    match str::from_utf8(word) {
        Ok(name) => name,
        Err(_) => "",
    }
}

/// Reads a word as a number.
pub fn number<N>(word: &Text) -> Result<N, Complaint>
where
    N: FromStr,
    N::Err: Drop,
{
    match str::from_utf8(word.as_slice()) {
        Ok(digits) => digits.parse().ok().ok_or(Complaint::Call),
        Err(_) => Err(Complaint::Call),
    }
}
