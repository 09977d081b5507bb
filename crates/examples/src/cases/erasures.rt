// Fields with erased cells.
ghost use Rattle.std.specs.Prelude.{◌<◌, ◌≤◌};

use crate::cases::damage::{SIDES, Stroke};
use crate::cases::random;
use crate::cases::sizes::Sizes;
use lattice::shape::Shape;
use second::answer::Buffer;

// The class of cell i, as the second implementation has it.
fn class(shape: Shape, i: usize) -> usize {
    let columns = shape.columns as usize;
    let rows = shape.rows as usize;
    if columns == 0 || rows == 0 {
        return 0;
    }
    let found = second::placing::class(shape, i / columns % rows, i / columns / rows, i % columns);
    found.figures[0]
}

// What is done to a class: of each `every`-th of its cells the first ones are erased, so many as `erasures` says, and the next
// one is turned over where `beside` says so.
#[derive(Clone, Copy)]
struct Marks {
    every: usize,
    erasures: usize,
    beside: bool,
    ghost some: { 0 < every },
}

impl Marks {
    // What is done to the n-th cell of the class.
    fn of(self, n: usize) -> Option<Stroke> {
        if n % self.every != 0 {
            return None;
        }
        let step = n / self.every;
        if step < self.erasures {
            Some(Stroke::Erase)
        } else if self.beside && step == self.erasures {
            Some(Stroke::TurnOver)
        } else {
            None
        }
    }
}

impl Sizes {
    // Marks so the cells of the class of cell `first`, from that cell on, round the end of the field.
    fn mark_class(self, first: usize, marks: Marks, field: &mut Buffer)
        requires { first < self.cells }
    {
        let a = class(self.shape, first);
        let mut n = 0;
        for step in 0..self.cells {
            let i = (first + step) % self.cells;
            if class(self.shape, i) == a {
                if let Some(stroke) = marks.of(n) {
                    field[i] = stroke.on(field[i]);
                }
                n += 1;
            }
        }
    }

    // Erases so many cells of the class of some cell, and turns one over beside them where `beside` says so.
    fn erase_in_class(self, erasures: usize, beside: bool, x: u64, field: &mut Buffer) {
        let every = 1 + random::below(random::next(x), 3);
        let marks = Marks {
            every,
            erasures,
            beside,
        };
        self.mark_class(random::below(x, self.cells), marks, field);
    }

    // Erases two holes that are each undone, one with cell i or near it, the other with cell j.
    fn erase_two(self, i: usize, j: usize, x: u64, field: &mut Buffer)
        requires { (i < self.cells) × (j < self.cells) }
    {
        self.strike(i, Stroke::Erase, x, field);
        self.strike(j, Stroke::Erase, random::next(x), field);
    }

    // Erases the last cell, and perhaps the one before: padding, where they hold no check and there is any.
    fn erase_end(self, x: u64, field: &mut Buffer) {
        field[self.cells - 1] = Stroke::Erase.on(field[self.cells - 1]);
        if 1 < self.cells && random::below(x, 2) == 0 {
            field[self.cells - 2] = Stroke::Erase.on(field[self.cells - 2]);
        }
    }

    // The damage of case `number` of those with erased cells: one or two erased in a class, or three for any case that is not
    // listed; two clusters, mostly apart, by joined cells, or over one another; the end of the field; one beside a cell turned
    // over in its class or anywhere; a hole beside one turned over, each of which would be undone; three in a class together
    // with what is refused before or after them; and cells of all three values by chance.
    pub(crate) fn erase(self, number: usize, x: u64, field: &mut Buffer) {
        let i = random::below(x, self.cells);
        let y = random::next(x);
        let j = random::below(y, self.cells);
        // A case's number draws it, and chooses its padding, its damage and what is lent alike, so it stays a number.
        match number {
            0 => self.erase_in_class(1, false, x, field),
            1 => self.erase_in_class(2, false, x, field),
            3 => self.erase_two(i, j, x, field),
            4 => self.erase_two(i, self.joined(i, random::pick(y, &SIDES)), x, field),
            5 => self.erase_two(i, i, x, field),
            6 | 7 => self.erase_end(x, field),
            8 => self.erase_in_class(1, true, x, field),
            9 => {
                self.scatter(1, x, field);
                self.erase_in_class(1, false, x, field);
            }
            10 => {
                self.punch(x, field);
                self.strike(j, Stroke::Erase, y, field);
            }
            11 => {
                self.erase_in_class(3, false, x, field);
                self.soil(x, field);
            }
            12 => {
                *field = random::buffer(x, 2);
                self.erase_in_class(3, false, x, field);
            }
            13 => *field = random::buffer(x, 3),
            _ => self.erase_in_class(3, false, x, field),
        }
    }
}
