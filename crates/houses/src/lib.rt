// House counts: the cost source of an archive's own scans, with the prices of extents. For everybody who plans over house counts.
#![tactic(auto)]

mod house;
mod house_fault;
mod prices;

pub use house::HouseCounts;
pub use house_fault::HouseFault;
pub use prices::price;
