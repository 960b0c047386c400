//! Texts of errors.

ghost use Rattle.std.specs.Prelude.{◌≡◌, ◌≢◌, ◌++◌, IfOk};
ghost use Rattle.tcl_results.specs.Says.{Complains};
ghost use Rattle.tcl_results.specs.Texts.{bad_list, too_long, too_deep, is_missing, quoted, wrong_args, bad_option, bad_flag, bad_format, bad_index, expected_number, variable_fault, not_read, not_set, not_unset, word_fault, expr_fault, bad_regular, no_package, version_conflict};

use crate::complaint::Complaint;
use crate::parts::front;
use std::alloc::{AllocError, Global};
use tcl_expr::ExprFault;
use tcl_subst::SubstFault;
use tcl_words::{Text, WordFault};

/// Returns the text of the error that a text is no list.
pub fn bad_list() -> &'static [u8]
    ensures { result.now ≡ bad_list }
{
    b"bad list"
}

/// Returns the text of the error that a value would be too long.
pub fn too_long() -> &'static [u8]
    ensures { result.now ≡ too_long }
{
    b"value too long"
}

/// Returns the text of the error that evaluations are nested too deep.
pub fn too_deep() -> &'static [u8]
    ensures { result.now ≡ too_deep }
{
    b"too many nested evaluations"
}

/// Returns a text, followed by at most 200 bytes of a word in quotes.
pub fn quoted(alloc: Global, front_text: &[u8], word: &[u8]) -> Result<Text, AllocError>
    ensures { IfOk result (λ t. t ≡ quoted front_text.now word.now) }
{
    let mut text = Text::from_slice(alloc, front_text)?;
    text.push(b'"')?;
    text.extend(front(word, 200))?;
    text.push(b'"')?;
    Ok(text)
}

/// Returns the same, followed by another text.
fn quoted_before(
    alloc: Global,
    front_text: &[u8],
    word: &[u8],
    behind: &[u8],
) -> Result<Text, AllocError>
    ensures { IfOk result (λ t. t ≡ quoted front_text.now word.now ++ behind.now) }
{
    let mut text = quoted(alloc, front_text, word)?;
    text.extend(behind)?;
    Ok(text)
}

/// Returns the text of the error that a command has too few or too many arguments.
pub fn wrong_args(alloc: Global, command: &[u8]) -> Result<Text, AllocError>
    ensures { IfOk result (λ t. t ≡ wrong_args command.now) }
{
    quoted(alloc, b"wrong # args for ", command)
}

/// Returns the text of the error that a command has no such flag.
pub fn bad_flag(alloc: Global, flag: &[u8]) -> Result<Text, AllocError>
    ensures { IfOk result (λ t. t ≡ bad_flag flag.now) }
{
    quoted(alloc, b"bad flag ", flag)
}

/// Returns the text of the error that a command has no such option.
pub fn bad_option(alloc: Global, option: &[u8]) -> Result<Text, AllocError>
    ensures { IfOk result (λ t. t ≡ bad_option option.now) }
{
    quoted(alloc, b"bad option ", option)
}

/// Returns the text of the error that a template has another form.
pub fn bad_format(alloc: Global, template: &[u8]) -> Result<Text, AllocError>
    ensures { IfOk result (λ t. t ≡ bad_format template.now) }
{
    quoted(alloc, b"bad format ", template)
}

/// Returns the text of the error that a text is no index.
pub fn bad_index(alloc: Global, text: &[u8]) -> Result<Text, AllocError>
    ensures { IfOk result (λ t. t ≡ bad_index text.now) }
{
    quoted(alloc, b"bad index ", text)
}

/// Returns the text of the error that a text is no number.
pub fn expected_number(alloc: Global, text: &[u8]) -> Result<Text, AllocError>
    ensures { IfOk result (λ t. t ≡ expected_number text.now) }
{
    quoted(alloc, b"expected number but got ", text)
}

/// Returns the text of the error that a text is no regular pattern.
pub fn bad_regular(alloc: Global, pattern: &[u8]) -> Result<Text, AllocError>
    ensures { IfOk result (λ t. t ≡ bad_regular pattern.now) }
{
    quoted(alloc, b"bad regular expression ", pattern)
}

/// Returns the text of the error that there is no such package.
pub fn no_package(alloc: Global, name: &[u8]) -> Result<Text, AllocError>
    ensures { IfOk result (λ t. t ≡ no_package name.now) }
{
    let mut text = Text::from_slice(alloc, b"can't find package ")?;
    text.extend(front(name, 200))?;
    Ok(text)
}

/// Returns the text of the error that a package has another version than is needed.
pub fn version_conflict(
    alloc: Global,
    name: &[u8],
    have: &[u8],
    need: &[u8],
) -> Result<Text, AllocError>
    ensures { IfOk result (λ t. t ≡ version_conflict name.now have.now need.now) }
{
    let mut text = quoted(alloc, b"version conflict for package ", name)?;
    text.extend(b": have ")?;
    text.extend(have)?;
    text.extend(b", need ")?;
    text.extend(front(need, 200))?;
    Ok(text)
}

/// Returns why a variable can't be read or set. `front_text` says which. `AllocError` for `Memory`.
fn variable_fault(
    alloc: Global,
    front_text: &[u8],
    name: &[u8],
    fault: SubstFault,
) -> Result<Text, AllocError>
    ensures text { IfOk result (λ t. t ≡ variable_fault front_text.now name.now fault) }
    ensures memory { IfOk result (λ _. fault ≢ SubstFault.Memory) }
{
    match fault {
        SubstFault::NoVariable => quoted_before(alloc, front_text, name, b": no such variable"),
        SubstFault::IsArray => quoted_before(alloc, front_text, name, b": variable is array"),
        SubstFault::NotArray => quoted_before(alloc, front_text, name, b": variable isn't array"),
        SubstFault::TooLong => Text::from_slice(alloc, too_long()),
        SubstFault::BadList => Text::from_slice(alloc, bad_list()),
        SubstFault::Exists => quoted_before(alloc, b"variable ", name, b" already exists"),
        SubstFault::Memory => Err(AllocError),
    }
}

/// Returns why a variable can't be read. `AllocError` for `Memory`.
pub fn not_read(alloc: Global, name: &[u8], fault: SubstFault) -> Result<Text, AllocError>
    ensures text { IfOk result (λ t. t ≡ not_read name.now fault) }
    ensures memory { IfOk result (λ _. fault ≢ SubstFault.Memory) }
{
    variable_fault(alloc, b"can't read ", name, fault)
}

/// Returns why a variable can't be set. `AllocError` for `Memory`.
pub fn not_set(alloc: Global, name: &[u8], fault: SubstFault) -> Result<Text, AllocError>
    ensures text { IfOk result (λ t. t ≡ not_set name.now fault) }
    ensures memory { IfOk result (λ _. fault ≢ SubstFault.Memory) }
{
    variable_fault(alloc, b"can't set ", name, fault)
}

/// Returns whether an error says that there is no such variable.
pub fn is_missing(fault: SubstFault) -> bool
    ensures { result ≡ is_missing fault }
{
    match fault {
        SubstFault::NoVariable => true,
        SubstFault::IsArray => false,
        SubstFault::NotArray => false,
        SubstFault::TooLong => false,
        SubstFault::Memory => false,
        SubstFault::Exists => false,
        SubstFault::BadList => false,
    }
}

/// Returns why a variable can't be unset. `AllocError` for `Memory`.
pub fn not_unset(alloc: Global, name: &[u8], fault: SubstFault) -> Result<Text, AllocError>
    ensures text { IfOk result (λ t. t ≡ not_unset name.now fault) }
    ensures memory { IfOk result (λ _. fault ≢ SubstFault.Memory) }
{
    if is_missing(fault) {
        return variable_fault(alloc, b"can't unset ", name, fault);
    }
    not_set(alloc, name, fault)
}

/// Returns why a command can't be parsed.
pub fn word_fault(fault: WordFault) -> &'static [u8]
    ensures { result.now ≡ word_fault fault }
{
    match fault {
        WordFault::MissingBrace => b"missing close-brace",
        WordFault::MissingBracket => b"missing close-bracket",
        WordFault::MissingQuote => b"missing \"",
        WordFault::ExtraAfterQuote => b"extra characters after close-quote",
        WordFault::ExtraAfterBrace => b"extra characters after close-brace",
        WordFault::TooDeep => b"nesting too deep",
        WordFault::MissingParen => b"missing )",
        WordFault::Memory => b"",
    }
}

/// Returns why an expression has no value.
pub fn expr_fault(alloc: Global, source: &[u8], fault: &ExprFault) -> Result<Text, AllocError>
    ensures { IfOk result (λ t. t ≡ expr_fault source.now fault.now) }
{
    match fault {
        ExprFault::Syntax => quoted(alloc, b"syntax error in expression ", source),
        ExprFault::NotNumber(text) => expected_number(alloc, text.as_slice()),
        ExprFault::DivideByZero => Text::from_slice(alloc, b"divide by zero"),
        ExprFault::ZeroToNegative => {
            Text::from_slice(alloc, b"exponentiation of zero by negative power")
        }
        ExprFault::NegativeShift => Text::from_slice(alloc, b"negative shift argument"),
        ExprFault::Overflow => Text::from_slice(alloc, b"integer overflow"),
        ExprFault::BadList => Text::from_slice(alloc, bad_list()),
        ExprFault::TooDeep => Text::from_slice(alloc, b"expression too deep"),
        ExprFault::Memory => Ok(Text::new(alloc)),
    }
}

/// Returns the error that a command has too few or too many arguments.
pub fn wrong(alloc: Global, command: &[u8]) -> Complaint
    ensures { Complains result (wrong_args command.now) }
{
    match wrong_args(alloc, command) {
        Ok(text) => Complaint::Said(text),
        Err(_) => Complaint::Memory,
    }
}

/// Returns the error that a text is no list.
pub fn no_list(alloc: Global) -> Complaint
    ensures { Complains result bad_list }
{
    match Text::from_slice(alloc, bad_list()) {
        Ok(text) => Complaint::Said(text),
        Err(_) => Complaint::Memory,
    }
}

/// Returns the error that a value would be too long.
pub fn over_limit(alloc: Global) -> Complaint
    ensures { Complains result too_long }
{
    match Text::from_slice(alloc, too_long()) {
        Ok(text) => Complaint::Said(text),
        Err(_) => Complaint::Memory,
    }
}
