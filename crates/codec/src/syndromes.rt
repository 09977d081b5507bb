// The syndromes of the classes of a field, line by line. The cells of one value are its 1 cells.
ghost use Rattle.std.specs.Prelude.{◌⊎◌, ◌≡◌, ℕ, ◌+◌, ◌*◌, ◌<◌, ◌≤◌, length, get_or};
ghost use Rattle.lattice.specs.declared.shape.Shape.{Shape};
ghost use Rattle.lattice.specs.Shape.{max_cells, max_classes, Accepted, cells_of};
ghost use Rattle.lattice.specs.Class.{layout_of};
ghost use Rattle.lattice.specs.Position.{Layout};
ghost use Rattle.lattice.specs.Lines.{pass_of, OfShape, Room, AtLine, Ready};
ghost use Rattle.lattice.specs.Sizes.{HoldsZeros};
ghost use Rattle.codec.specs.Field.{field_of, having};
ghost use Rattle.codec.specs.Working.{HoldsSyndromes};
ghost use Rattle.codec.specs.Lines.{LineTaken, Taken, SliceTaken, folded};

use lattice::line::{Line, Pass, next_place};
use passes::line_positions::{first_line, next_positions};

// A position where the cell with a byte number has the value, else 0.
fn position_if(field: &[u8], i: usize, value: u8, position: u16) -> u16
    requires { i < length field.now }
    ensures { result ≡ position * having value (field_of field.now) i }
{
    if field[i] == value { position } else { 0 }
}

// Takes in the line of w cells that begins at cell n, from the place `start` on.
fn take_line(t: &mut [u16], e: &[u16], field: &[u8], value: u8, start: usize, n: usize, w: usize)
    requires { (start + w ≤ length t.old) × (start + w ≤ length e.now) × (n + w ≤ length field.now) }
    ensures { LineTaken (having value (field_of field.now)) start n w
        e.now t.old t.new }
{
    for x in 0..w {
        t[start + x] ^= position_if(field, n + x, value, e[start + x]);
    }
}

// Takes in every line of slice j, from its first. At entry t is 0.
fn take_lines(
    pass: Pass,
    j: usize,
    first: Line,
    field: &[u8],
    value: u8,
    e: &mut [u16],
    p: &[u16],
    q: &[u16],
    t: &mut [u16],
)
    requires of_shape { OfShape pass × (2 ≤ pass.classes) × (j < pass.slices) × (j < pass.lines) }
    requires field_len { (length field.now ≡ pass.cells) × (length t.old ≡ length e.old) }
    requires ready { Ready pass (length e.old) p.now q.now }
    requires at_line { (s : Shape) → Accepted s → pass ≡ pass_of s → AtLine s j first e.old }
    requires by_index { (y : ℕ) → get_or t.old y 0 ≡ 0 }
    ensures { (s : Shape)
        → Accepted s
        → pass ≡ pass_of s
        → Taken (layout_of s) pass.period (j * pass.period) (having value (field_of field.now))
        t.new (cells_of s) }
{
    let mut line = first;
    for l in (j..pass.lines).step_by(pass.slices) {
        take_line(
            t,
            e,
            field,
            value,
            line.start,
            l * pass.columns,
            pass.columns,
        );
        line = next_positions(pass, line, e, p, q);
    }
}

// The exclusive or of the entries of each remainder, from the entry `first` on; these are 0 at entry.
fn fold(t: &[u16], m: usize, first: usize, syndromes: &mut [u32])
    requires m_nonzero { (0 < m) × (m ≤ max_classes) × (first + m ≤ length syndromes.old) }
    requires by_index { (a : ℕ) → a < m → get_or syndromes.old (first + a) 0 ≡ 0 }
    ensures by_index_2 { (a : ℕ)
        → a < m
        → get_or syndromes.new (first + a) 0 ≡ folded m a (length t.now) t.now }
    ensures by_index_3 { (a : ℕ)
        → (a < first) ⊎ (first + m ≤ a)
        → get_or syndromes.new a 0 ≡ get_or syndromes.old a 0 }
{
    let mut a = 0;
    for sum in t {
        syndromes[first + a] ^= *sum as u32;
        a = next_place(a, m);
    }
}

// The syndromes of the classes of slice j, by lists that are as long as the pass needs; they and t are 0 at entry.
fn listed_syndromes(
    pass: Pass,
    j: usize,
    field: &[u8],
    value: u8,
    e: &mut [u16],
    p: &mut [u16],
    q: &mut [u16],
    t: &mut [u16],
    syndromes: &mut [u32],
)
    requires of_shape { OfShape pass × (2 ≤ pass.classes) × (j < pass.slices) × (j < pass.lines) }
    requires field_len { (length field.now ≡ pass.cells) × (max_classes ≤ length syndromes.old) }
    requires by_index { (a : ℕ) → a < pass.period → get_or syndromes.old (j * pass.period + a) 0 ≡ 0 }
    requires room { Room pass (length e.old) (length p.old) (length q.old) × (length t.old ≡ length e.old) }
    requires by_index_2 { (y : ℕ) → get_or t.old y 0 ≡ 0 }
    ensures { SliceTaken pass j (having value (field_of field.now)) syndromes.old
        syndromes.new }
{
    let first = first_line(pass, e, p, q);
    take_lines(pass, j, first, field, value, e, p, q, t);
    fold(t, pass.period, j * pass.period, syndromes);
}

// The syndromes of the classes of slice j, where there are two classes or more; they are 0 at entry.
fn slice_syndromes(pass: Pass, j: usize, field: &[u8], value: u8, syndromes: &mut [u32])
    requires of_shape { OfShape pass × (2 ≤ pass.classes) × (j < pass.slices) × (j < pass.lines) }
    requires field_len { (length field.now ≡ pass.cells) × (max_classes ≤ length syndromes.old) }
    requires by_index { (a : ℕ) → a < pass.period → get_or syndromes.old (j * pass.period + a) 0 ≡ 0 }
    ensures { SliceTaken pass j (having value (field_of field.now)) syndromes.old
        syndromes.new }
{
    let wide = pass.period + pass.columns;
    let long = wide + pass.period;
    let mut e = [0u16; 768];
    let mut p = [0u16; 1280];
    let mut q = [0u16; 1280];
    let mut t = [0u16; 768];
    listed_syndromes(
        pass,
        j,
        field,
        value,
        &mut e[..wide],
        &mut p[..long],
        &mut q[..long],
        &mut t[..wide],
        syndromes,
    );
}

// The syndromes of two classes or more, slice by slice; the array is 0 at entry. Slices beyond the last line have no cell.
fn line_syndromes(pass: Pass, field: &[u8], value: u8, syndromes: &mut [u32])
    requires of_shape { OfShape pass × (2 ≤ pass.classes) }
    requires field_len { (length field.now ≡ pass.cells) × (max_classes ≤ length syndromes.old) }
    requires holds_zeros { HoldsZeros syndromes.old }
    ensures { (s : Shape)
        → Accepted s
        → pass ≡ pass_of s
        → HoldsSyndromes (layout_of s) (having value (field_of field.now)) syndromes.new (cells_of s) }
{
    for j in 0..pass.slices {
        if j < pass.lines {
            slice_syndromes(pass, j, field, value, syndromes);
        }
    }
}

// The syndrome of the one class of n cells, where the position of cell i is i + 1; the array is 0 at entry.
fn one_syndrome(n: usize, field: &[u8], value: u8, syndromes: &mut [u32])
    requires n_in_bounds { (n ≤ length field.now) × (n ≤ max_cells) × (0 < length syndromes.old) }
    requires holds_zeros { HoldsZeros syndromes.old }
    ensures { (L : Layout)
        → ((i : ℕ) → i < n → L.class i ≡ 0)
        → HoldsSyndromes L (having value (field_of field.now)) syndromes.new n }
{
    let mut sum: u32 = 0;
    for (i, cell) in field[..n].iter().enumerate() {
        if *cell == value {
            sum ^= i as u32 + 1;
        }
    }
    syndromes[0] = sum;
}

// The syndrome of each class of a field whose 1 cells are those of the value; the array is 0 at entry.
pub(crate) fn field_syndromes(pass: Pass, field: &[u8], value: u8, syndromes: &mut [u32])
    requires of_shape { OfShape pass × (length field.now ≡ pass.cells) × (max_classes ≤ length syndromes.old) }
    requires holds_zeros { HoldsZeros syndromes.old }
    ensures { (s : Shape)
        → Accepted s
        → pass ≡ pass_of s
        → HoldsSyndromes (layout_of s) (having value (field_of field.now)) syndromes.new (cells_of s) }
{
    if pass.classes == 1 {
        one_syndrome(pass.cells, field, value, syndromes);
    } else {
        line_syndromes(pass, field, value, syndromes);
    }
}
