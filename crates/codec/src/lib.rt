// Coding: the plan of a field, and encoding, decoding and correcting it.
#![tactic(auto)]

pub mod cell;
pub mod correct;
mod damage;
pub mod decode;
pub mod encode;
mod erasures;
mod examine;
mod fill;
mod gather;
mod hamming;
mod lengths;
mod payload;
pub mod plan;
mod scatter;
mod syndromes;
