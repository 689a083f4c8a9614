//! Changes of a JSON document that can be undone without an allocation.
#![tactic(auto)]

pub mod addition;
mod elements;
pub mod journal;
pub mod locate;
pub mod location;
mod members;
pub mod node_mut;
pub mod removal;
pub mod token_step;
