//! Plans the log of one script from a timeline of its children: it inserts each answer when the
//! script requests it.
#![tactic(auto)]

mod fault;
mod planner;
mod planning;

pub use fault::PlanFault;
pub use planner::MOST_ANSWERS;
pub use planning::plan;
