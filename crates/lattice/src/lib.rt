// Placing: the shape of a field, the interleaving class of a cell, the capacity, and the distance test.
#![tactic(auto)]

mod by_lines;
pub mod capacity;
pub mod class;
pub mod distance;
mod integers;
pub mod line;
pub mod range;
pub mod refusal;
mod scan;
pub mod settings;
pub mod shape;
