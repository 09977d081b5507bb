// The second implementation: plan, class, write, read, mend and gauge, and the shaded write, read and mend, written
// from the papers alone and naively, by search. It shares no code with the library: its reasons, its settings and its tests of a
// window are its own, where they look alike too. A buffer and how much of it is lent stand apart, as what lies behind is compared
// as well, and a length that is not the plan's is declined.
#![tactic(auto)]

pub mod answer;
mod declined;
pub mod gauge;
mod lawful;
mod layout;
pub mod placing;
pub mod read;
mod settings;
pub mod shaded;
mod shaded_words;
mod used;
mod window;
pub mod write;
