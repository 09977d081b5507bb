// The erased cells of a field: counted, listed class by class, and of those that are listed the ones that are to be 1.
ghost use Rattle.std.specs.Prelude.{true, false, ◌≢◌, ◌≡◌, ℕ, ◌+◌, ◌<◌, ◌≤◌, get_or, length};
ghost use Rattle.lattice.specs.Shape.{max_cells, max_classes, Accepted, cells_of};
ghost use Rattle.lattice.specs.Class.{placement_given, layout_of};
ghost use Rattle.lattice.specs.Position.{Layout};
ghost use Rattle.lattice.specs.Counting.{count};
ghost use Rattle.codec.specs.Field.{Field, field_of, erased, having, Received};
ghost use Rattle.codec.specs.Erasure.{is_erased, erasures_to};
ghost use Rattle.codec.specs.Code.{field_few_erasures};
ghost use Rattle.codec.specs.Working.{HoldsSyndromes, HoldsNone, FieldFits, ListsErasures, kept_cell, damaged_cell, Located};

use crate::cell::{ERASED, cell_value};
use crate::syndromes::field_syndromes;
use lattice::class::{Placement, class_at};
use lattice::shape::Shape;
use passes::cell_places::{NO_CELL, cells_at};

// The number of erased cells, where no byte is above `most`.
pub(crate) fn count_erased(field: &[u8], most: u8) -> usize
    requires field_len_bound { length field.now ≤ max_cells }
    requires by_index { (i : ℕ) → i < length field.now → field_of field.now i ≤ most }
    ensures { result ≡ count (is_erased (field_of field.now)) (length field.now) }
{
    if most < ERASED {
        return 0;
    }
    field.iter().filter(|cell| **cell == ERASED).count()
}

// Lists an erased cell as the first or the second of its class; no where the class has two already.
fn list_erasure(first: &mut [u32], second: &mut [u32], class: usize, cell: u32) -> bool
    requires class_lt_max_classes { (class < max_classes) × (cell < max_cells) }
    requires max_classes_in_bounds { (max_classes ≤ length first.old) × (max_classes ≤ length second.old) }
    ensures { (L : Layout) (f : Field)
        → L.class cell ≡ class
        → f cell ≡ erased
        → ListsErasures L f cell first.old second.old
        → (result ≡ true → ListsErasures L f (cell + 1) first.new second.new)
        × (result ≡ false → 3 ≤ erasures_to L f class (cell + 1)) }
{
    if first[class] == NO_CELL {
        first[class] = cell;
        return true;
    }
    if second[class] == NO_CELL {
        second[class] = cell;
        return true;
    }
    false
}

// Lists a cell where it is erased; no where its class has two erasures already.
fn list_cell(
    shape: Shape,
    placement: Placement,
    first: &mut [u32; Shape::MAX_CLASSES],
    second: &mut [u32; Shape::MAX_CLASSES],
    value: u8,
    cell: u32,
) -> bool
    requires { Accepted shape × (placement ≡ placement_given shape) × (cell < cells_of shape) }
    ensures { (f : Field)
        → f cell ≡ value
        → ListsErasures (layout_of shape) f cell first.old second.old
        → (result ≡ true → ListsErasures (layout_of shape) f (cell + 1) first.new second.new)
        × (result ≡ false → 3 ≤ erasures_to (layout_of shape) f ((layout_of shape).class cell) (cell + 1)) }
{
    if value != ERASED {
        return true;
    }
    list_erasure(first, second, class_at(shape, placement, cell), cell)
}

// Is none of the 32 cells from `from` on erased? No where there are fewer. The greatest tells.
fn none_erased(field: &[u8], from: usize) -> bool
    ensures { result ≡ true
        → (from + 32 ≤ length field.now)
        × ((d : ℕ) → d < 32 → field_of field.now (from + d) ≢ erased) }
{
    if field.len() < from {
        return false;
    }
    if field.len() - from < 32 {
        return false;
    }
    let mut most = 0;
    for cell in &field[from..from + 32] {
        most = most.max(*cell);
    }
    most < ERASED
}

// Lists the erased cells of each class; no where some class has three or more. At entry no cell is listed.
fn list_erasures(
    shape: Shape,
    field: &[u8],
    first: &mut [u32; Shape::MAX_CLASSES],
    second: &mut [u32; Shape::MAX_CLASSES],
) -> bool
    requires field_fits { FieldFits shape field.now }
    requires holds_none { HoldsNone first.old × HoldsNone second.old }
    ensures value { result ≡ field_few_erasures shape (field_of field.now) }
    ensures lists_erasures { result ≡ true
        → ListsErasures (layout_of shape) (field_of field.now) (cells_of shape) first.new
        second.new }
{
    let placement = shape.placement();
    let mut i = 0;
    // its step is 32 cells or one
    while i < field.len() {
        if none_erased(field, i) {
            i += 32;
        } else {
            let value = cell_value(field, i);
            if !list_cell(shape, placement, first, second, value, i as u32) {
                return false;
            }
            i += 1;
        }
    }
    true
}

// An erased cell where it is to be 1, else none: the syndrome of its class is its position, that of `cell`, or the exclusive or
// of the positions of all erasures of the class.
fn kept_cell(syndrome: u32, sum: u32, cell: u32, erasure: u32) -> u32
    ensures { result ≡ kept_cell syndrome sum cell erasure }
{
    if syndrome == sum {
        return erasure;
    }
    if cell == erasure {
        return erasure;
    }
    NO_CELL
}

// Keeps of the erased cells that are listed, one for each class below m, those that are to be 1.
fn keep_ones(
    m: usize,
    syndromes: &[u32; Shape::MAX_CLASSES],
    sums: &[u32; Shape::MAX_CLASSES],
    cells: &[u32; Shape::MAX_CLASSES],
    erasures: &mut [u32],
)
    requires { (m ≤ max_classes) × (max_classes ≤ length erasures.old) }
    ensures { (a : ℕ)
        → a < m
        → get_or erasures.new a 0
        ≡ kept_cell (get_or syndromes.now a 0) (get_or sums.now a 0) (get_or cells.now a 0)
        (get_or erasures.old a 0) }
{
    for (a, erasure) in erasures[..m].iter_mut().enumerate() {
        *erasure = kept_cell(syndromes[a], sums[a], cells[a], *erasure);
    }
}

// The cell that a syndrome names, where its class has no erasure, else none.
fn damaged_cell(erasure: u32, cell: u32) -> u32
    ensures { result ≡ damaged_cell erasure cell }
{
    if erasure == NO_CELL { cell } else { NO_CELL }
}

// Of the cells that the syndromes name, one for each class below m, those in classes with no erasure are damaged.
fn list_damaged(
    m: usize,
    first: &[u32; Shape::MAX_CLASSES],
    cells: &[u32; Shape::MAX_CLASSES],
    damaged: &mut [u32],
)
    requires { (m ≤ max_classes) × (max_classes ≤ length damaged.old) }
    ensures { (a : ℕ)
        → a < m
        → get_or damaged.new a 0
        ≡ damaged_cell (get_or first.now a 0) (get_or cells.now a 0) }
{
    for (a, cell) in damaged[..m].iter_mut().enumerate() {
        *cell = damaged_cell(first[a], cells[a]);
    }
}

// The cells that correction flips, where the erased cells are listed.
fn locate_listed(
    shape: Shape,
    field: &[u8],
    syndromes: &[u32; Shape::MAX_CLASSES],
    damaged: &mut [u32; Shape::MAX_CLASSES],
    first: &mut [u32; Shape::MAX_CLASSES],
    second: &mut [u32; Shape::MAX_CLASSES],
)
    requires field_fits { FieldFits shape field.now × Received (field_of field.now) (cells_of shape) }
    requires holds_syndromes { HoldsSyndromes (layout_of shape) (having 1 (field_of field.now)) syndromes.now (cells_of shape) }
    requires lists_erasures { ListsErasures (layout_of shape) (field_of field.now) (cells_of shape) first.old second.old }
    ensures { Located shape field.now damaged.new first.new second.new }
{
    let mut sums = [0u32; Shape::MAX_CLASSES];
    field_syndromes(shape.pass(), field, ERASED, &mut sums);
    let mut cells = [0u32; Shape::MAX_CLASSES];
    cells_at(shape, syndromes, &mut cells);
    let m = shape.classes();
    list_damaged(m, first, &cells, damaged);
    keep_ones(m, syndromes, &sums, &cells, first);
    keep_ones(m, syndromes, &sums, &cells, second);
}

// The cells that correction flips where 0 stands in each erased cell, where no byte is above `most`; no where some class has
// three erasures or more. At entry no cell is listed.
pub(crate) fn locate(
    shape: Shape,
    field: &[u8],
    most: u8,
    syndromes: &[u32; Shape::MAX_CLASSES],
    damaged: &mut [u32; Shape::MAX_CLASSES],
    first: &mut [u32; Shape::MAX_CLASSES],
    second: &mut [u32; Shape::MAX_CLASSES],
) -> bool
    requires field_fits { FieldFits shape field.now × Received (field_of field.now) (cells_of shape) }
    requires by_index { (i : ℕ) → i < cells_of shape → field_of field.now i ≤ most }
    requires holds_syndromes { HoldsSyndromes (layout_of shape) (having 1 (field_of field.now)) syndromes.now (cells_of shape) }
    requires holds_none { HoldsNone first.old × HoldsNone second.old }
    ensures value { result ≡ field_few_erasures shape (field_of field.now) }
    ensures located { result ≡ true
        → Located shape field.now damaged.new first.new second.new }
{
    if most < ERASED {
        cells_at(shape, syndromes, damaged);
        return true;
    }
    if !list_erasures(shape, field, first, second) {
        return false;
    }
    locate_listed(shape, field, syndromes, damaged, first, second);
    true
}
