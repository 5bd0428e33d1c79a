// Calls: what a job can be asked and what it answers, what each call does by definition, and the law of all lives. For everybody who runs a job.
#![tactic(auto)]

mod answer;
mod call;
mod laws;
mod refusal;

pub use answer::{Answer, View};
pub use call::Call;
pub use laws::law_of_lives;
pub use refusal::Refusal;
