//! Serves scripts over real children, with several workers.
#![tactic(auto)]

mod audience;
mod dealing;
mod hands;
mod laws;
mod rounds;
mod served;
mod serving;
mod stopping;
mod worker;

pub use audience::Audience;
pub use laws::{serving_is_run, serving_isolation};
pub use served::{Served, Unsettled, WorkerResult, assembled};
pub use serving::{ServeFault, serve};
pub use stopping::Stopping;
