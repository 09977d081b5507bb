// The code in a class, cell by cell: whether a cell holds data, and its value after correction.
ghost use Rattle.std.specs.Prelude.{◌≡◌, cond, not, ◌<◌, eqb, get_or};
ghost use Rattle.lattice.specs.Shape.{max_classes};
ghost use Rattle.lattice.specs.Check.{is_check};
ghost use Rattle.lattice.specs.Position.{Layout};
ghost use Rattle.codec.specs.Field.{Field, flip};
ghost use Rattle.codec.specs.Packing.{flipped_by};

use lattice::capacity::is_check;
use lattice::shape::Shape;
use passes::place::Place;

// Does the cell at a place hold no check, where `sizes` holds the size of each class?
pub(crate) fn holds_data(sizes: &[u32; Shape::MAX_CLASSES], place: Place) -> bool
    requires { place.class < max_classes }
    ensures { result ≡ not (is_check (get_or sizes.now place.class 0) place.position) }
{
    let class = place.class;
    !is_check(sizes[class], place.position)
}

// The cell flipped.
pub(crate) fn flip(value: u8) -> u8
    ensures { result ≡ flip value }
{
    if value == 0 { 1 } else { 0 }
}

// The value flipped where the array names the cell for its class.
fn flipped_by(cells: &[u32; Shape::MAX_CLASSES], class: usize, cell: u32, value: u8) -> u8
    requires { class < max_classes }
    ensures { result ≡ cond (eqb (get_or cells.now class 0) cell) (flip value) value }
{
    if cells[class] == cell {
        flip(value)
    } else {
        value
    }
}

// The value of a cell after correction, from the value with 0 for an erased cell: flipped for each array that names the cell.
pub(crate) fn corrected_value(
    damaged: &[u32; Shape::MAX_CLASSES],
    first: &[u32; Shape::MAX_CLASSES],
    second: &[u32; Shape::MAX_CLASSES],
    class: usize,
    cell: u32,
    value: u8,
) -> u8
    requires { class < max_classes }
    ensures { (L : Layout) (f : Field)
        → L.class cell ≡ class
        → f cell ≡ value
        → result
        ≡ flipped_by L second.now
        (flipped_by L first.now (flipped_by L damaged.now f)) cell }
{
    let once = flipped_by(damaged, class, cell, value);
    let twice = flipped_by(first, class, cell, once);
    flipped_by(second, class, cell, twice)
}
