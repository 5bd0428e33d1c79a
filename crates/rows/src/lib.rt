// Rows (inner): fills one row of a step from the row above it. Its functions ask that places and cells fit; only `steps` may use it.
#![tactic(auto)]

mod above;
mod level;
mod powers;
mod row;

pub use above::{Above, Found, class_cost};
