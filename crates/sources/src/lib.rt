// Cost sources: what a source of costs is, what it vouches for, and Glebov's condition looked at square by square. For everybody who plans or writes a source.
#![tactic(auto)]

mod source;
mod squares;
mod vouching;

pub use source::Source;
pub use squares::{first_broken_square, first_too_large, firsts_are_first, squares_decide};
pub use vouching::Vouching;
