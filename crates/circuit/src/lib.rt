// Lists of calls on stabilizer states, and how they may be divided between two.
#![tactic(auto)]

pub mod call;
pub mod division;
