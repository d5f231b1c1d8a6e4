// The byte format of stabilizer states, and of archives of them.
#![tactic(auto)]

mod bits;
mod build;
pub mod codec;
pub mod container;
mod cursor;
pub mod fault;
mod layout;
pub mod load;
mod pivots;
mod put;
mod shape;
