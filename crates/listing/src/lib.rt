// The listing of an archive, a line for each pair of its states, and its description.
#![tactic(auto)]

pub mod columns;
pub mod comparison;
pub mod description;
pub mod fields;
pub mod hex;
pub mod line;
pub mod pair;
mod pairs;
pub mod sheets;
pub mod space;
pub mod text;
