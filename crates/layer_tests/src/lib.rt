//! Tests that cross crates. The crate has no other code, so no crate is proved once more for its
//! tests.
#![tactic(auto)]

#[cfg(test)]
mod hall;
#[cfg(test)]
mod hands;
#[cfg(test)]
mod keeper;
#[cfg(test)]
mod next;
#[cfg(test)]
mod pieces;
#[cfg(test)]
mod refused;
#[cfg(test)]
mod requests;
#[cfg(test)]
mod rings;
#[cfg(test)]
mod served;
#[cfg(test)]
mod workers;
