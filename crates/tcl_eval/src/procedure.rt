//! Procedures.

use tcl_control::Formals;
use tcl_scripts::Script;

/// A procedure.
#[derive(Drop)]
pub struct Procedure {
    /// The formal arguments.
    pub formals: Formals,
    /// The body.
    pub body: Script,
}
