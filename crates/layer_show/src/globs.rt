//! Shows where globs match.

use crate::complaint::Complaint;
use crate::spell::{alloc_of, push_string};
use exp_glob::Glob;
use std::alloc::AllocError;
use tcl_words::Text;

/// Appends a line for a pattern in a text: the start and the end of the match, or `none`.
fn push_span(text: &mut Text, pattern: &Text, data: &Text, nocase: bool) -> Result<(), AllocError> {
    let alloc = alloc_of(text);
    let glob = Glob::new(alloc, pattern.as_slice(), nocase)?;
    let span = glob.find(data.as_slice(), nocase);
    drop(glob);
    match span {
        Some((start, end)) => push_string(text, format!(in alloc; "{start} {end}\n")),
        None => text.extend(b"none\n"),
    }
}

/// Shows matches of globs. Each call contains a pattern and a text, after `-nocase` if case is
/// ignored. Appends a line for each.
pub fn push_globs(text: &mut Text, calls: &[Vec<Text>]) -> Result<(), Complaint> {
    'calls: for call in calls {
        match call.as_slice() {
            [pattern, data] => push_span(text, pattern, data, false)?,
            [flag, pattern, data] if flag.as_slice() == b"-nocase".as_slice() => {
                push_span(text, pattern, data, true)?;
            }
            _ => return Err(Complaint::Call),
        }
    }
    Ok(())
}
