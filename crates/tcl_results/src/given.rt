//! Reads the arguments of a command. Their number fits the command's row.

ghost use Rattle.std.specs.Prelude.{◌≡◌, drop, take};
ghost use Rattle.tcl_results.specs.Given.{arg, arg_or};

use tcl_values::Value;

/// Returns the argument at an index, or another text if there is none.
pub fn arg_or<'a>(args: &'a [Value], n: usize, other: &'a [u8]) -> &'a [u8]
    ensures { result.now ≡ arg_or other.now n args.now }
{
    match args.get(n) {
        None => other,
        Some(value) => value.as_slice(),
    }
}

/// Returns the argument at an index, or an empty text if there is none.
pub fn arg(args: &[Value], n: usize) -> &[u8]
    ensures { result.now ≡ arg n args.now }
{
    arg_or(args, n, &[])
}

/// Returns the arguments after the first.
pub fn others(args: &[Value]) -> &[Value]
    ensures { result.now ≡ drop 1 args.now }
{
    match args {
        [] => args,
        [_, rest @ ..] => rest,
    }
}

/// Returns the first n arguments.
pub fn before(args: &[Value], n: usize) -> &[Value]
    ensures { result.now ≡ take n args.now }
{
    if args.len() < n {
        return args;
    }
    args.split_at(n).0
}

/// Returns the arguments from an index on.
pub fn behind(args: &[Value], n: usize) -> &[Value]
    ensures { result.now ≡ drop n args.now }
{
    if args.len() < n {
        return &[];
    }
    args.split_at(n).1
}
