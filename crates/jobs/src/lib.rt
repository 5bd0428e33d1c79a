// Jobs: plans that live on, call by call, over a cost source. For everybody who plans.
#![tactic(auto)]

mod job;
mod plan;
mod record;

pub use calls::{Answer, Call, Refusal, View, law_of_lives};
pub use job::Job;
pub use record::{Moment, Record};
pub use steps::Cuts;
