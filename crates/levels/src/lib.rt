// Coding of levels, the papers' shaded fields: encoding, decoding and correcting fields whose cells are 0 to 24.
#![tactic(auto)]

pub mod correct;
pub mod decode;
pub mod encode;
mod examine;
mod faults;
mod lengths;
mod remainders;
mod restore;
mod spot;
mod tour;
mod words;
