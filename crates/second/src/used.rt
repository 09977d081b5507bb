// How many classes hold at least one cell: the classes of all cells are collected, each once, by a search among those found.
ghost use Rattle.std.specs.Prelude.{◌≤◌};

use crate::layout::class_of_byte;
use crate::settings::CLASSES;
use lattice::shape::Shape;

// How many different classes the cells of an accepted shape have, of which there are so many.
pub(crate) fn used_classes(shape: Shape, cells: usize) -> usize
    ensures { result ≤ 512 }
{
    // An array and how many it holds, since nothing allocates; and a search, as it shares no method with the library.
    let mut found = [0usize; CLASSES];
    let mut n = 0;
    for i in 0..cells {
        let a = class_of_byte(shape, i);
        if !found[..n].contains(&a) && n < CLASSES {
            found[n] = a;
            n += 1;
        }
    }
    n
}
