// The capacity of a field: the sizes of its classes, and the cells of each that hold no check; the classes that hold a cell; and
// the digits of a field of levels.
ghost use Rattle.std.specs.Prelude.{◌≡◌, ◌≢◌, ℕ, ◌+◌, ◌<◌, ◌≤◌, get_or};
ghost use Rattle.lattice.specs.Refusal.{figure};
ghost use Rattle.lattice.specs.Shape.{max_classes, shape_number, Accepted, cells_of};
ghost use Rattle.lattice.specs.Class.{layout_of};
ghost use Rattle.lattice.specs.Sizes.{HoldsSizes};
ghost use Rattle.lattice.specs.Check.{is_power, is_check, checks, data_cells, capacity, data_in};
ghost use Rattle.lattice.specs.Used.{used_of, used_in};
ghost use Rattle.lattice.specs.Digits.{words_in, digits_in};

use crate::by_lines::sizes_by;
use crate::shape::Shape;

// The number of checks of a class of n cells: the bit length of n.
pub fn checks(n: u32) -> u32
    ensures { result ≡ checks n }
{
    32 - u32::leading_zeros(n)
}

// Is p a power of two?
fn is_power(p: u32) -> bool
    ensures { result ≡ is_power p }
{
    p.is_power_of_two()
}

// Does the position hold a check in a class of that size?
pub fn is_check(size: u32, position: u32) -> bool
    ensures { result ≡ is_check size position }
{
    is_power(position)
}

// The number of cells of a class of n cells that hold no check.
pub fn data_cells(n: u32) -> u32
    ensures { result ≡ data_cells n }
{
    n - checks(n)
}

// The number of words of six cells that a class of n cells is cut into.
pub fn words_in(n: u32) -> u32
    ensures { result ≡ words_in n }
{
    n / 6
}

// The size of each class; for a shape that the constructor refuses the array keeps its entries.
pub fn class_sizes(shape: Shape, sizes: &mut [u32; Shape::MAX_CLASSES])
    ensures holds_sizes { Accepted shape → HoldsSizes (layout_of shape) sizes.new (cells_of shape) }
    ensures sizes_unchanged { shape_number shape ≢ 0 → sizes.new ≡ sizes.old }
{
    let Ok(()) = shape.tests() else {
        return;
    };
    *sizes = [0; Shape::MAX_CLASSES];
    sizes_by(shape.pass(), sizes);
}

// The three sums over the classes stay apart: one function for them would take a closure, whose clause is longer than a loop.

// The number of cells that hold no check, where `sizes` holds the size of each of that many classes; 0 for more than there can
// be.
pub fn data_in(sizes: &[u32; Shape::MAX_CLASSES], classes: usize) -> usize
    ensures { classes ≤ max_classes → result ≡ data_in sizes.now classes }
{
    if classes > Shape::MAX_CLASSES {
        return 0;
    }
    let mut sum: usize = 0;
    for size in &sizes[..classes] {
        sum += data_cells(*size) as usize;
    }
    sum
}

// The number of classes that hold at least one cell, where `sizes` holds the size of each of that many classes; 0 for more than
// there can be.
pub fn used_in(sizes: &[u32; Shape::MAX_CLASSES], classes: usize) -> usize
    ensures { classes ≤ max_classes → result ≡ used_in sizes.now classes }
{
    if classes > Shape::MAX_CLASSES {
        return 0;
    }
    let mut used: usize = 0;
    for size in &sizes[..classes] {
        if 0 < *size {
            used += 1;
        }
    }
    used
}

// The number of digits of a field of levels, five in each word of six cells, where `sizes` holds the size of each of that many
// classes; 0 for more than there can be.
pub fn digits_in(sizes: &[u32; Shape::MAX_CLASSES], classes: usize) -> usize
    ensures { classes ≤ max_classes → result ≡ digits_in sizes.now classes }
{
    if classes > Shape::MAX_CLASSES {
        return 0;
    }
    let mut words: usize = 0;
    for size in &sizes[..classes] {
        words += words_in(*size) as usize;
    }
    5 * words
}

impl Shape {
    // The number of cells that hold no check; 0 for a shape that the constructor refuses.
    pub fn capacity(self) -> usize
        ensures { result ≡ figure (shape_number self) (capacity (layout_of self)) }
    {
        let mut sizes = [0u32; Shape::MAX_CLASSES];
        class_sizes(self, &mut sizes);
        data_in(&sizes, self.classes())
    }

    // The number of classes that hold at least one cell; 0 for a shape that the constructor refuses.
    pub fn used_classes(self) -> usize
        ensures { result ≡ figure (shape_number self) (used_of self) }
    {
        let mut sizes = [0u32; Shape::MAX_CLASSES];
        class_sizes(self, &mut sizes);
        used_in(&sizes, self.classes())
    }
}
