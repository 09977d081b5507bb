// The sizes of the classes: from where the lines begin in the table of classes, an addition for each line, or from how many lines
// each slice has.
ghost use Rattle.std.specs.Prelude.{◌≡◌, ℕ, ◌+◌, ◌-◌, ◌*◌, ◌%◌, ◌<◌, ◌≤◌, length, get_or};
ghost use Rattle.lattice.specs.declared.shape.Shape.{Shape};
ghost use Rattle.lattice.specs.Shape.{max_cells, max_classes, Accepted};
ghost use Rattle.lattice.specs.Class.{layout_of};
ghost use Rattle.lattice.specs.Position.{size};
ghost use Rattle.lattice.specs.Lines.{table_of, line_start, pass_of, OfShape, among, starts_at, Sums};

use crate::line::{Line, Pass, next_line, next_place};
use crate::shape::Shape;

// How many of the lines begin at each place of the table; the array is 0 at entry.
fn count_starts(pass: Pass, starts: &mut [u32])
    requires of_shape { OfShape pass × (max_classes ≤ length starts.old) }
    requires by_index { (a : ℕ) → get_or starts.old a 0 ≡ 0 }
    ensures { (s : Shape)
        → Accepted s
        → pass ≡ pass_of s
        → (a : ℕ)
        → get_or starts.new a 0 ≡ starts_at (line_start (table_of s) s.rows) a pass.lines }
{
    let mut line = Line {
        left: pass.last,
        start: 0,
    };
    for l in 0..pass.lines {
        let a = line.start;
        starts[a] += 1;
        line = next_line(pass, line);
    }
}

// The sums of what stands before each place, over two rounds of the table; the first is 0 at entry.
fn sum_starts(m: usize, starts: &[u32], heads: &mut [u32])
    requires m_nonzero { (0 < m) × (m ≤ max_classes) × (m ≤ length starts.now) × (2 * m < length heads.old) }
    requires by_index { (a : ℕ) → a < m → get_or starts.now a 0 ≤ max_cells }
    requires heads_value { get_or heads.old 0 0 ≡ 0 }
    ensures { Sums (λ y. get_or starts.now (y % m) 0) (2 * m) heads.new }
{
    let mut a = 0;
    for y in 0..2 * m {
        heads[y + 1] = heads[y] + starts[a];
        a = next_place(a, m);
    }
}

// The size of each class below m, from those sums: `base` for the whole rounds of the table in the lines, and the lines that
// begin in the `gap` places up to the class's own.
fn spread(m: usize, gap: usize, base: u32, heads: &[u32], sizes: &mut [u32])
    requires gap_le_m { (gap ≤ m) × (m ≤ max_classes) × (base ≤ max_cells) × (2 * m < length heads.now) × (m ≤ length sizes.old) }
    requires by_index { (y : ℕ) → y ≤ 2 * m → get_or heads.now y 0 ≤ y * max_cells }
    requires by_index_2 { (a : ℕ) → a < m → get_or heads.now (a + 1 + m - gap) 0 ≤ base + get_or heads.now (a + 1 + m) 0 }
    ensures by_index_3 { (a : ℕ)
        → a < m
        → get_or sizes.new a 0 + get_or heads.now (a + 1 + m - gap) 0
        ≡ base + get_or heads.now (a + 1 + m) 0 }
    ensures by_index_4 { (a : ℕ) → m ≤ a → get_or sizes.new a 0 ≡ get_or sizes.old a 0 }
{
    for a in 0..m {
        sizes[a] = base + heads[a + 1 + m] - heads[a + 1 + m - gap];
    }
}

// The size of each class where there is one slice; the array is 0 at entry.
fn sizes_by_starts(pass: Pass, sizes: &mut [u32])
    requires of_shape { OfShape pass × (pass.slices ≡ 1) × (max_classes ≤ length sizes.old) }
    requires by_index { (a : ℕ) → get_or sizes.old a 0 ≡ 0 }
    ensures { (s : Shape)
        → Accepted s
        → pass ≡ pass_of s
        → (a : ℕ)
        → get_or sizes.new a 0 ≡ size (layout_of s) a }
{
    let m = pass.period;
    let mut starts = [0u32; Shape::MAX_CLASSES];
    count_starts(pass, &mut starts);
    let mut heads = [0u32; 1025];
    sum_starts(m, &starts, &mut heads);
    spread(
        m,
        pass.columns % m,
        (pass.lines * (pass.columns / m)) as u32,
        &heads,
        sizes,
    );
}

// How many of n numbers from 0 on have the remainder y by m.
fn share(n: usize, m: usize, y: usize) -> usize
    requires { (y < m) × (n ≤ max_cells) }
    ensures { result ≡ among m y n }
{
    if y < n % m { n / m + 1 } else { n / m }
}

// The size of each class where there are more slices, whose lines all begin at the table's first place; the array is 0 at entry.
fn sizes_by_slices(pass: Pass, sizes: &mut [u32])
    requires of_shape { OfShape pass × (2 ≤ pass.slices) × (max_classes ≤ length sizes.old) }
    requires by_index { (a : ℕ) → get_or sizes.old a 0 ≡ 0 }
    ensures { (s : Shape)
        → Accepted s
        → pass ≡ pass_of s
        → (a : ℕ)
        → get_or sizes.new a 0 ≡ size (layout_of s) a }
{
    for a in 0..pass.classes {
        let lines = share(pass.lines, pass.slices, a / pass.period);
        let columns = share(pass.columns, pass.period, a % pass.period);
        sizes[a] = (lines * columns) as u32;
    }
}

// The size of each class of an accepted shape; the array is 0 at entry.
pub(crate) fn sizes_by(pass: Pass, sizes: &mut [u32])
    requires of_shape { OfShape pass × (max_classes ≤ length sizes.old) }
    requires by_index { (a : ℕ) → get_or sizes.old a 0 ≡ 0 }
    ensures { (s : Shape)
        → Accepted s
        → pass ≡ pass_of s
        → (a : ℕ)
        → get_or sizes.new a 0 ≡ size (layout_of s) a }
{
    if pass.slices == 1 {
        sizes_by_starts(pass, sizes);
    } else {
        sizes_by_slices(pass, sizes);
    }
}
