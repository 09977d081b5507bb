// A fixed generator (xorshift).
ghost use Rattle.std.specs.Prelude.{◌<◌, ◌≤◌, length};

use second::answer::{Buffer, CELLS};

pub(crate) fn next(x: u64) -> u64 {
    let a = x ^ (x << 13);
    let b = a ^ (a >> 7);
    b ^ (b << 17)
}

// The third number after x, where x itself and the next ones are drawn from too.
pub(crate) fn later(x: u64) -> u64 {
    next(next(next(x)))
}

// A case and a part of it: what the generator makes the input of a comparison of.
#[derive(Clone, Copy)]
pub(crate) struct Case {
    pub(crate) number: usize,
    pub(crate) part: usize,
}

impl Case {
    pub(crate) fn new(number: usize, part: usize) -> Case {
        Case { number, part }
    }

    // The start of its numbers.
    pub(crate) fn seed(self) -> u64 {
        let a = next(0x9e3779b97f4a7c15 ^ self.number as u64);
        next(next(a ^ self.part as u64))
    }
}

// A number below `end`.
pub(crate) fn below(x: u64, end: usize) -> usize
    requires { 0 < end }
    ensures { result < end }
{
    (x >> 24) as usize % end
}

// One of some items.
pub(crate) fn pick<T: Copy>(x: u64, items: &[T]) -> T
    requires { 0 < length items.now }
{
    items[below(x, items.len())]
}

// The numbers after one, without end.
#[derive(Drop)]
pub(crate) struct After(pub(crate) u64);

impl Iterator for After {
    type Item = u64;

    fn next(&mut self) -> Option<u64> {
        self.0 = next(self.0);
        Some(self.0)
    }
}

// A buffer of numbers below `end`.
pub(crate) fn buffer(x: u64, end: usize) -> Buffer
    requires { (0 < end) × (end ≤ 256) }
{
    let mut buffer = [0; CELLS];
    for (number, state) in buffer.iter_mut().zip(After(x)) {
        *number = below(state, end) as u8;
    }
    buffer
}
