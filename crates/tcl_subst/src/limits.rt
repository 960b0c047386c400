//! The longest value.

ghost use Rattle.std.specs.Prelude.{◌≡◌, ◌++◌, length};
ghost use Rattle.tcl_subst.specs.Faults.{is_too_long};

/// The most bytes in a value.
pub const VALUE_LIMIT: usize = 1_048_576;

/// Returns whether a value of this many bytes would be too long.
#[tactic(auto, unfolding(crate::specs::Faults::is_too_long))]
pub fn is_too_long(count: usize) -> bool
    ensures { result ≡ is_too_long count }
{
    VALUE_LIMIT < count
}

/// Returns whether the two byte sequences together would be too long a value.
#[tactic(auto, unfolding(crate::specs::Faults::is_too_long))]
pub fn are_too_long(bytes: &[u8], more: &[u8]) -> bool
    ensures { result ≡ is_too_long (length (bytes.now ++ more.now)) }
{
    VALUE_LIMIT < bytes.len() || VALUE_LIMIT - bytes.len() < more.len()
}
