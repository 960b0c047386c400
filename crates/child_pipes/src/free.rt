//! A gate that is always open.

use child_hands::Gate;

/// Lets every request pass.
#[derive(Clone, Copy)]
pub struct Free;

impl Gate for Free {
    fn pass(&self, _script: u8, _child: u8, _turn: u64) -> bool {
        true
    }
}
