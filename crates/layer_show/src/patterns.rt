//! Shows which pattern of a list is chosen.

use crate::calls::number;
use crate::complaint::Complaint;
use crate::spell::{alloc_of, push_string};
use exp_match::{Chosen, PatternFault, PatternList};
use std::alloc::{AllocError, Global};
use tcl_values::Value;
use tcl_words::Text;

fn push_span(text: &mut Text, span: Option<(usize, usize)>) -> Result<(), AllocError> {
    let alloc = alloc_of(text);
    match span {
        Some((start, end)) => push_string(text, format!(in alloc; " {start},{end}")),
        None => text.extend(b" -"),
    }
}

fn push_chosen(text: &mut Text, chosen: Chosen) -> Result<(), AllocError> {
    let alloc = alloc_of(text);
    let (index, spans) = match chosen {
        Chosen::Full => return text.extend(b"full\n"),
        Chosen::None => return text.extend(b"none\n"),
        Chosen::Pattern(index, spans) => (index, spans),
    };
    push_string(text, format!(in alloc; "{index}"))?;
    'spans: for span in &spans {
        push_span(text, *span)?;
    }
    text.push(b'\n')
}

fn push_refused(text: &mut Text, fault: PatternFault) -> Result<(), AllocError> {
    let alloc = alloc_of(text);
    match fault {
        PatternFault::BadFlag(index) => push_string(text, format!(in alloc; "bad flag {index}\n")),
        PatternFault::BadRegex(index) => {
            push_string(text, format!(in alloc; "bad regular expression {index}\n"))
        }
        PatternFault::Refused => text.extend(b"refused\n"),
        PatternFault::Memory => Err(AllocError),
    }
}

/// Returns every group of a list.
pub fn all_groups(alloc: Global, list: &PatternList) -> Result<Vec<usize>, AllocError> {
    let mut groups = Vec::new(alloc);
    'groups: for group in 0..list.groups() {
        groups.push(group)?;
    }
    Ok(groups)
}

/// Appends a line for the pattern of a list that is chosen in bytes. A test contains the greatest
/// number of bytes that are kept, and the bytes.
fn push_test(
    text: &mut Text,
    list: &PatternList,
    groups: &[usize],
    test: &[Text],
) -> Result<(), Complaint> {
    let [max, bytes] = test else {
        return Err(Complaint::Call);
    };
    let chosen = list.choose(alloc_of(text), groups, bytes.as_slice(), number(max)?)?;
    Ok(push_chosen(text, chosen)?)
}

/// Appends a line for each test.
fn push_tests(text: &mut Text, list: &PatternList, tests: &[Vec<Text>]) -> Result<(), Complaint> {
    let groups = all_groups(alloc_of(text), list)?;
    'tests: for test in tests {
        push_test(text, list, groups.as_slice(), test.as_slice())?;
    }
    Ok(())
}

/// Returns texts as the values of a command's arguments.
fn values_of(alloc: Global, texts: &[Text]) -> Result<Vec<Value>, AllocError> {
    let mut values = Vec::new(alloc);
    'texts: for text in texts {
        values.push(Value::from_slice(alloc, text.as_slice())?)?;
    }
    Ok(values)
}

/// Reads the arguments of `expect`.
pub fn list_of(alloc: Global, arguments: &[Text]) -> Result<PatternList, PatternFault> {
    let arguments = values_of(alloc, arguments)?;
    PatternList::build(alloc, arguments.as_slice())
}

/// Shows chosen patterns. The first call contains the arguments of `expect`. Each other call
/// contains the greatest number of bytes that are kept, and bytes. Appends a line for each: the
/// chosen pattern and its spans.
pub fn push_patterns(text: &mut Text, calls: &[Vec<Text>]) -> Result<(), Complaint> {
    let [arguments, tests @ ..] = calls else {
        return Ok(());
    };
    match list_of(alloc_of(text), arguments.as_slice()) {
        Ok(list) => push_tests(text, &list, tests),
        Err(fault) => Ok(push_refused(text, fault)?),
    }
}
