//! Decides whether a text is a regular pattern.

ghost use Rattle.std.specs.Prelude.{◌≡◌, ◌↔◌, ◌+◌, ◌^◌, ◌<◌, ◌≤◌, List, ℕ, true, false, IfOk, IfSome, MatchOption, IsTrue, length, option_map, chars, slice_index};
ghost use Rattle.exp_match.specs.Scan.{opening as opening_of, escape as escape_of, is_set as is_set_of, with_lazy as with_lazy_of, brace as brace_of, token_at as token_of, behind as behind_of, accepts as accepts_of, outermost, is_pattern};
ghost use Rattle.exp_match.specs.Grammar.{RePattern};

use crate::class::class;
use crate::count::{count, is_digit};
use crate::escapes::{escaped, is_set};
use crate::places::{after, char_at, is_at};
use crate::token::{Nesting, Token};
use std::alloc::{AllocError, Global};
use std::str::from_utf8;

/// Reads the start of a group after its `(`. A `?` may follow only in `(?:`.
fn opening(rest: &[char]) -> Option<(Token, usize)>
    ensures value { result ≡ opening_of rest.now }
    ensures within { IfSome result (λ t. t.1 ≤ length rest.now) }
{
    if !is_at(rest, 0, '?') {
        return Some((Token::Open, 0));
    }
    if is_at(rest, 1, ':') {
        Some((Token::Open, 2))
    } else {
        None
    }
}

/// Returns the token of an escape or a set, given the characters after its backslash.
fn escape(rest: &[char]) -> Option<(Token, usize)>
    ensures value { result ≡ escape_of rest.now }
    ensures within { IfSome result (λ t. t.1 ≤ length rest.now) }
{
    if begins_set(rest) {
        return Some((Token::Atom, 1));
    }
    match escaped(rest) {
        Some((_, n)) => Some((Token::Atom, n)),
        None => None,
    }
}

/// Returns whether the characters begin with the letter of a set.
fn begins_set(rest: &[char]) -> bool
    ensures value { result ≡ is_set_of (slice_index rest.now 0) }
    ensures within { IsTrue result → 1 ≤ length rest.now }
{
    match rest {
        [] => false,
        [c, ..] => is_set(*c),
    }
}

/// Returns how many characters of a repetition follow its first: n, and one more if a `?` makes it
/// lazy.
fn with_lazy(rest: &[char], n: usize) -> usize
    requires { n ≤ length rest.now }
    ensures value { result ≡ with_lazy_of rest.now n }
    ensures within { result ≤ length rest.now }
{
    if is_at(rest, n, '?') { n + 1 } else { n }
}

/// Returns the token that a `{` begins: a count before a digit, otherwise a character.
fn brace(rest: &[char]) -> Option<(Token, usize)>
    ensures value { result ≡ brace_of rest.now }
    ensures within { IfSome result (λ t. t.1 ≤ length rest.now) }
{
    if !is_digit(char_at(rest, 0)) {
        return Some((Token::Atom, 0));
    }
    match count(rest) {
        Some(n) => Some((Token::Repeat, with_lazy(rest, n))),
        None => None,
    }
}

/// Returns the token that a character begins, and the number of later characters that belong to it.
#[tactic(auto, unfolding(crate::specs::Scan::token_at))]
fn token_at(c: char, rest: &[char]) -> Option<(Token, usize)>
    ensures value { result ≡ token_of c rest.now }
    ensures within { IfSome result (λ t. t.1 ≤ length rest.now) }
{
    match c {
        '|' | '^' | '$' => Some((Token::Bound, 0)),
        '*' | '+' | '?' => Some((Token::Repeat, with_lazy(rest, 0))),
        '{' => brace(rest),
        '(' => opening(rest),
        ')' => Some((Token::Close, 0)),
        '[' => with_token(Token::Atom, class(rest)),
        '\\' => escape(rest),
        _ => Some((Token::Atom, 0)),
    }
}

/// Returns a token with the number of characters after its first.
fn with_token(token: Token, count: Option<usize>) -> Option<(Token, usize)>
    ensures { result ≡ option_map (λ n. (token, n)) count }
{
    match count {
        Some(n) => Some((token, n)),
        None => None,
    }
}

/// Returns the nesting after a token. `None` if the token may not stand there.
fn behind(nesting: Nesting, token: Token) -> Option<Nesting>
    requires { nesting.opened + nesting.left < 2 ^ 63 }
    ensures value { result ≡ behind_of nesting token }
    ensures sum { IfSome result (λ n. n.opened + n.left ≡ nesting.opened + nesting.left) }
{
    let bound = Nesting {
        repeatable: false,
        ..nesting
    };
    let atom = Nesting {
        repeatable: true,
        ..nesting
    };
    match token {
        Token::Bound => Some(bound),
        Token::Repeat => {
            if !nesting.repeatable {
                return None;
            }
            Some(bound)
        }
        Token::Open => {
            if nesting.left == 0 {
                return None;
            }
            Some(Nesting {
                opened: nesting.opened + 1,
                left: nesting.left - 1,
                ..bound
            })
        }
        Token::Close => {
            if nesting.opened == 0 {
                return None;
            }
            Some(Nesting {
                opened: nesting.opened - 1,
                left: nesting.left + 1,
                ..atom
            })
        }
        Token::Atom => Some(atom),
    }
}

/// Returns whether the characters are a pattern.
fn accepts(chars: &[char]) -> bool
    ensures { result ≡ accepts_of chars.now outermost }
{
    let mut nesting = Nesting {
        opened: 0,
        left: 50,
        repeatable: false,
    };
    let mut at = 0;
    while at < chars.len() {
        let Some((token, n)) = token_at(char_at(chars, at), after(chars, at + 1)) else {
            return false;
        };
        let Some(next) = behind(nesting, token) else {
            return false;
        };
        nesting = next;
        at += 1 + n;
    }
    nesting.opened == 0
}

/// Returns the text as UTF-8 if it is a regular pattern: at most 4,096 bytes, with groups nested at
/// most 50 deep.
///
/// It allocates the characters of the text.
#[tactic(auto, unfolding(crate::specs::Scan::is_pattern))]
pub(crate) fn pattern_text(alloc: Global, text: &[u8]) -> Result<Option<&str>, AllocError>
    ensures { IfOk result (λ found. MatchOption found (is_pattern text.now ≡ false) (λ s. (is_pattern text.now ≡ true) × (s.now ≡ text.now))) }
{
    if text.len() > 4096 {
        return Ok(None);
    }
    let Ok(source) = from_utf8(text) else {
        return Ok(None);
    };
    let chars = characters(alloc, source)?;
    if accepts(chars.as_slice()) {
        Ok(Some(source))
    } else {
        Ok(None)
    }
}

/// Returns the characters of a text.
pub(crate) fn characters(alloc: Global, text: &str) -> Result<Vec<char>, AllocError>
    ensures { IfOk result (λ v. v.items ≡ chars text.now) }
{
    text.chars().collect(alloc)
}

/// States the law of the grammar: `PatternList::build` accepts exactly the regular patterns that
/// the rules derive.
pub fn pattern_rules()
    ensures { (text : List ℕ) → (is_pattern text ≡ true) ↔ RePattern text }
{}
