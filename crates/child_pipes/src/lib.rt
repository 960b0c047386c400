//! Real children over pipes and their ends, the system's clock, and a gate that is always open.
#![tactic(auto)]

mod cancellation;
mod children;
mod counts;
mod errors;
mod free;
mod guard;
mod held;
mod lookup;
mod output;
mod pipes;
mod processes;
mod programs;
mod ready;
mod reaper;
mod stage;
mod stop;
mod wall;
mod watch;

pub use cancellation::Cancellation;
pub use errors::{ErrorPipe, ErrorPipes};
pub use free::Free;
pub use guard::Guard;
pub use output::Output;
pub use pipes::Pipes;
pub use processes::Process;
pub use programs::{Programs, Started};
pub use reaper::{Reaper, Terms};
pub use stage::Stage;
pub use stop::Stop;
pub use wall::Wall;
pub use watch::Watch;
