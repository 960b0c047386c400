//! Words as requests have them, from outside.

use crate::changes::{EnvironmentChange, is_name};
use crate::quoting::{quoted, quoted_words};
use crate::terminal::terminal_words;
use std::alloc::{AllocError, Global};
use std::test::Fail;
use tcl_words::{Text, Texts};

/// Returns the texts, each with a `|` after it.
fn lined(alloc: Global, texts: &[Text]) -> Result<Text, AllocError> {
    let mut line = Text::new(alloc);
    for text in texts {
        line.extend(text.as_slice())?;
        line.push(b'|')?;
    }
    Ok(line)
}

fn texts_of(alloc: Global, words: &[&[u8]]) -> Result<Texts, AllocError> {
    let mut texts = Texts::new(alloc);
    for word in words {
        texts.push(Text::from_slice(alloc, word)?)?;
    }
    Ok(texts)
}

/// Returns the words of a request from the seventh on.
fn last_words(
    alloc: Global,
    words: &[&[u8]],
    settings: &[&[u8]],
    changes: &[EnvironmentChange],
) -> Result<Text, AllocError> {
    let words = texts_of(alloc, words)?;
    let settings = texts_of(alloc, settings)?;
    let made = terminal_words(alloc, words.as_slice(), settings.as_slice(), changes)?;
    match made.as_slice() {
        [_, _, _, _, _, _, last @ ..] => lined(alloc, last),
        _ => Ok(Text::new(alloc)),
    }
}

#[test]
fn words_in_quotes(rt: HostRuntime) -> Result<(), Fail> {
    let alloc = rt.alloc();
    let cases: [(&[u8], &[u8]); 5] = [
        (b"", b"''"),
        (b"'", b"''\\'''"),
        (b"''", b"''\\'''\\'''"),
        (b"it's", b"'it'\\''s'"),
        (b"$x \\\n`", b"'$x \\\n`'"),
    ];
    for (word, want) in cases {
        assert_eq!(rt; quoted(alloc, word)?.as_slice(), want);
    }
    Ok(())
}

#[test]
fn several_words_in_quotes(rt: HostRuntime) -> Result<(), Fail> {
    let alloc = rt.alloc();
    let words = texts_of(alloc, &[b"a", b"", b"'"])?;
    let text = quoted_words(alloc, words.as_slice())?;
    assert_eq!(rt; text.as_slice(), b"'a' '' ''\\'''".as_slice());
    Ok(())
}

#[test]
fn each_byte_in_quotes(rt: HostRuntime) -> Result<(), Fail> {
    let alloc = rt.alloc();
    for b in 1..=255u8 {
        let text = quoted(alloc, &[b])?;
        if b == 39 {
            assert_eq!(rt; text.as_slice(), b"''\\'''".as_slice());
        } else {
            assert_eq!(rt; text.as_slice(), [39, b, 39].as_slice());
        }
    }
    Ok(())
}

#[test]
fn names(rt: HostRuntime) {
    for name in [b"A".as_slice(), b"_", b"az_AZ09"] {
        assert!(rt; is_name(name));
    }
    for other in [b"".as_slice(), b"0A", b"A-B", b"A=", b"A B", b"A;B"] {
        assert!(rt; !is_name(other));
    }
}

#[test]
fn a_program_in_a_terminal(rt: HostRuntime) -> Result<(), Fail> {
    let last = last_words(rt.alloc(), &[b"prog", b"it's", b"$x"], &[], &[])?;
    let want = b"exec 'prog' 'it'\\''s' '$x'|prog||";
    assert_eq!(rt; last.as_slice(), want.as_slice());
    Ok(())
}

#[test]
fn settings_of_a_terminal(rt: HostRuntime) -> Result<(), Fail> {
    let last = last_words(rt.alloc(), &[b"ssh", b"gate"], &[b"cols", b"132"], &[])?;
    let want = b"stty 'cols' '132'; exec 'ssh' 'gate'|ssh||";
    assert_eq!(rt; last.as_slice(), want.as_slice());
    Ok(())
}

#[test]
fn changes_of_the_environment(rt: HostRuntime) -> Result<(), Fail> {
    let alloc = rt.alloc();
    let gone = Text::from_slice(alloc, b"GONE")?;
    let name = Text::from_slice(alloc, b"FOO")?;
    let value = Text::from_slice(alloc, b"it's")?;
    let changes = [
        EnvironmentChange::Removed(gone),
        EnvironmentChange::Set(name, value),
    ];
    let last = last_words(alloc, &[b"p"], &[], &changes)?;
    let want =
        b"unset GONE; export 'FOO=it'\\''s'; exec 'p'|p|unset GONE; export 'FOO=it'\\''s'; |";
    assert_eq!(rt; last.as_slice(), want.as_slice());
    Ok(())
}
