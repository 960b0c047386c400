//! The digits at the front of a text, and the number that they write.

ghost use Rattle.std.specs.Prelude.{◌≡◌, ◌≤◌, ◌+◌, ◌-◌, ◌*◌, length, min};
ghost use Rattle.std.specs.Char.{is_ascii_digit};
ghost use Rattle.std.specs.List.{prefix_len};
ghost use Rattle.tcl_expr.specs.Number.{value_from};

fn is_digit(byte: u8) -> bool
    ensures { result ≡ is_ascii_digit byte }
{
    byte.is_ascii_digit()
}

/// Returns the number of digits at the front of a text.
pub(crate) fn digits_at(text: &[u8]) -> usize
    ensures value { result ≡ prefix_len is_ascii_digit text.now }
    ensures within { result ≤ length text.now }
{
    text.iter().take_while(|b| is_digit(**b)).count()
}

/// Returns the number n, followed by a digit, at most `most`.
fn with_digit(n: u64, digit: u8, most: u64) -> u64
    ensures { result ≡ min (n * 10 + (digit - 48)) most }
{
    let longer = u128::from(n) * 10 + u128::from(digit.saturating_sub(b'0'));
    longer.min(u128::from(most)) as u64
}

/// Returns the number that digits write, at most `most`.
#[tactic(auto, using(crate::proofs::Capped::capped_on, crate::proofs::Capped::capped_end))]
pub(crate) fn number_up_to(digits: &[u8], most: u64) -> u64
    ensures { result ≡ min (value_from 0 digits.now) most }
{
    let mut n: u64 = 0;
    for b in digits {
        n = with_digit(n, *b, most);
    }
    n
}
