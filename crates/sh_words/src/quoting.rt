//! Words in single quotes.

ghost use Rattle.std.specs.Prelude.{◌≡◌, ◌++◌, ◌∷◌, [], Some, IfOk, OnOk};
ghost use Rattle.std.specs.List.{flat_map};
ghost use Rattle.sh_words.specs.Quoting.{quote, quoted_byte, quoted_words as words_of, spaced};
ghost use Rattle.sh_words.specs.Reading.{sh_words};

use std::alloc::{AllocError, Global};
use tcl_words::Text;

/// Appends a word's bytes as they stand within single quotes.
fn push_within(out: &mut Text, word: &[u8]) -> Result<(), AllocError>
    ensures { OnOk result (out.new ≡ out.old ++ flat_map quoted_byte word.now) }
{
    for b in word {
        if *b == b'\'' {
            out.extend(b"'\\''")?;
        } else {
            out.push(*b)?;
        }
    }
    Ok(())
}

/// Appends a word in single quotes.
fn push_quoted(out: &mut Text, word: &[u8]) -> Result<(), AllocError>
    ensures { OnOk result (out.new ≡ out.old ++ quote word.now) }
{
    out.push(b'\'')?;
    push_within(out, word)?;
    out.push(b'\'')?;
    Ok(())
}

/// Appends words in single quotes, each with a space before it.
fn push_spaced(out: &mut Text, words: &[Text]) -> Result<(), AllocError>
    ensures { OnOk result (out.new ≡ out.old ++ spaced words.now) }
{
    for word in words {
        out.push(b' ')?;
        push_quoted(out, word.as_slice())?;
    }
    Ok(())
}

/// Appends words in single quotes, with a space between any two.
fn push_words(out: &mut Text, words: &[Text]) -> Result<(), AllocError>
    ensures { OnOk result (out.new ≡ out.old ++ words_of words.now) }
{
    match words {
        [] => Ok(()),
        [first, rest @ ..] => {
            push_quoted(out, first.as_slice())?;
            push_spaced(out, rest)?;
            Ok(())
        }
    }
}

/// Quotes a word for the shell, which reads it back as that one word.
#[tactic(auto, using(crate::proofs::WordReads::quote_alone))]
pub fn quoted(alloc: Global, word: &[u8]) -> Result<Text, AllocError>
    ensures text { IfOk result (λ t. t ≡ quote word.now) }
    ensures read { IfOk result (λ t. sh_words t ≡ Some (word.now ∷ [])) }
{
    let mut out = Text::new(alloc);
    push_quoted(&mut out, word)?;
    Ok(out)
}

/// Quotes words for the shell, with a space between any two. The shell reads them back as these
/// words.
#[tactic(auto, using(crate::proofs::WordReads::words_alone))]
pub fn quoted_words(alloc: Global, words: &[Text]) -> Result<Text, AllocError>
    ensures text { IfOk result (λ t. t ≡ words_of words.now) }
    ensures read { IfOk result (λ t. sh_words t ≡ Some words.now) }
{
    let mut out = Text::new(alloc);
    push_words(&mut out, words)?;
    Ok(out)
}
