//! The nodes of a deployment's correct seats, of any four kinds: what they send each other, and the run of a schedule.
#![tactic(auto)]

mod cause;
mod entering;
mod fault;
mod grid;
mod machine;
mod nodes;
mod places;
mod world;

pub use fault::RunFault;
pub use grid::Grid;
pub use nodes::Nodes;
pub use world::World;
