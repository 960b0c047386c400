//! The name of a file that isn't complete yet.

ghost use Rattle.std.specs.Prelude.{◌≡◌, IfOk};
ghost use Rattle.product_files.specs.Part.{part_of};

use std::alloc::{AllocError, Global};

/// Returns the name of a file until it is complete: its own name with `.part` appended.
pub fn part_name(alloc: Global, name: &str) -> Result<String, AllocError>
    ensures { IfOk result (λ part. part.bytes.items ≡ part_of name.now) }
{
    let mut part = String::new(alloc);
    part.push_str(name)?;
    part.push_str(".part")?;
    Ok(part)
}
