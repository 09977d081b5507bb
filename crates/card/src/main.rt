// The card program: reads a card text from standard input and writes the answer to standard output.
#![tactic(auto)]

mod body;
mod header;
mod keys;
mod line;
mod print;
mod reply;
mod run;
mod scan;

use crate::run::{MAX_ANSWER, MAX_READ, answer_card};

// The standard streams.
const STDIN_FILENO: i32 = 0;

const STDOUT_FILENO: i32 = 1;

const STDERR_FILENO: i32 = 2;

fn main() {
    let mut input = [0u8; MAX_READ];
    let mut output = [0u8; MAX_ANSWER];
    let read = io::read_full(STDIN_FILENO, &mut input);
    let length = answer_card(&input[..read], &mut output);
    if !io::write_all(STDOUT_FILENO, &output[..length]) {
        io::write_all(
            STDERR_FILENO,
            b"card: not all of the answer could be written\n",
        );
    }
}
