// Runs worked examples of documents 01 and 02, and compares the library with a second implementation.
#![tactic(auto)]

mod cases;
mod coding;
mod given;
mod print;
mod tally;
mod worked;

use tally::Tally;

fn main() {
    worked::run();
    let mut tally = Tally::new();
    cases::numbers::all(&mut tally);
    cases::numbers::with_windows(&mut tally);
    cases::plans::all(&mut tally);
    cases::fields::all(&mut tally);
    cases::shaded::all(&mut tally);
    tally.lines();
}
