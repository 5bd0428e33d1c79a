// Kinds of cost: what costs are, how they add up and compare, and the laws that every plan rests on. For everybody.
#![tactic(auto)]

mod kind;
mod number;
mod ranked;

pub use kind::Kind;
pub use ranked::Ranked;

// The largest size that a single cost may have.
pub const LARGEST: u64 = 1_000_000_000;
