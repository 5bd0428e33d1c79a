// Steps (inner): the code of one step, and of stepping up from no cuts. Its functions ask for a plan and for cells enough; only `jobs` may use it.
#![tactic(auto)]

mod cuts;
mod filling;
mod stepping;
mod tracing;

pub use cuts::Cuts;
pub use stepping::{Stepped, climb, step};
