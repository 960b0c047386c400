//! Numbers of arguments.

ghost use Rattle.std.specs.Prelude.{◌≡◌, Some};
ghost use Rattle.command_table.specs.Counts.{exactly, at_least, between, fits};

/// The number of arguments that a command takes.
#[derive(Clone, Copy, PartialEq, Eq)]
pub struct Count {
    /// The least number.
    pub least: usize,
    /// The greatest number. `None` means no limit.
    pub most: Option<usize>,
}

/// Returns the count that only n arguments fit.
pub(crate) fn exactly(n: usize) -> Count
    ensures { result ≡ exactly n }
{
    between(n, n)
}

/// Returns the count that n or more arguments fit.
pub(crate) fn at_least(n: usize) -> Count
    ensures { result ≡ at_least n }
{
    Count {
        least: n,
        most: None,
    }
}

/// Returns the count that `least` to `most` arguments fit.
pub(crate) fn between(least: usize, most: usize) -> Count
    ensures { result ≡ between least most }
{
    Count {
        least,
        most: Some(most),
    }
}

/// Returns whether a command may have this number of arguments.
pub fn fits(count: Count, n: usize) -> bool
    ensures { result ≡ fits count n }
{
    match count.most {
        None => count.least <= n,
        Some(most) => count.least <= n && n <= most,
    }
}
