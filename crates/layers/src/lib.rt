// Layers: cost sources that stand on others, joined, paired, turned, or seen through a window. For everybody who plans over more than one source or over a part of one.
#![tactic(auto)]

mod joined;
mod paired;
mod turned;
mod window;

pub use joined::Joined;
pub use paired::Paired;
pub use turned::Turned;
pub use window::Window;
