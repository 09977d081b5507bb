// The cells that hold a check, listed in byte order with the place of each. Most lines of a large field hold no check; they are
// passed over by loops over the classes.
ghost use Rattle.std.specs.Prelude.{◌⊎◌, ◌≡◌, ℕ, ◌+◌, ◌-◌, ◌*◌, ◌^◌, ◌%◌, ◌<◌, ◌≤◌, length, get_or};
ghost use Rattle.lattice.specs.Shape.{max_side, max_cells, max_classes, Accepted, cells_of};
ghost use Rattle.lattice.specs.Class.{layout_of};
ghost use Rattle.lattice.specs.Position.{Layout};
ghost use Rattle.lattice.specs.Sizes.{HoldsSizes};
ghost use Rattle.lattice.specs.Check.{checks};
ghost use Rattle.lattice.specs.Lines.{OfShape, Gains};
ghost use Rattle.lattice.specs.Listing.{max_checks, checks_to, ListsChecks, HoldsPlaces};
ghost use Rattle.passes.specs.CheckList.{ListedTo, LinesListed, LineOf, NoPowerNear, FreeAhead, PutLast};

use crate::line_positions::gains;
use crate::place::count_in;
use lattice::capacity::{checks, is_check};
use lattice::line::{Line, Pass, next_line, next_place};
use lattice::shape::Shape;

// No accepted shape has more cells that hold a check.
pub const MAX_CHECKS: usize = 4096;

// What a line of w cells gives to each remainder, over two rounds of the table.
fn fill_gains(gained: &mut [u16], m: usize, w: usize)
    requires { (0 < m) × (m ≤ max_classes) × (2 * m ≤ length gained.old) × (w ≤ max_side) }
    ensures { Gains m w (2 * m) gained.new }
{
    let n = 2 * m;
    gains(&mut gained[..n], m, w);
}

// A line is passed: each of the m classes of its slice, from the class `first` on, gains its cells of the line.
fn count_line(counts: &mut [u32], gains: &[u16], m: usize, first: usize, from: usize)
    requires m_in_bounds { (first + m ≤ length counts.old) × (m + from ≤ length gains.now) }
    requires by_index { (a : ℕ) → a < m → get_or counts.old (first + a) 0 ≤ max_cells }
    ensures by_index_2 { (a : ℕ)
        → a < m
        → get_or counts.new (first + a) 0
        ≡ get_or counts.old (first + a) 0 + get_or gains.now (a + from) 0 }
    ensures by_index_3 { (a : ℕ)
        → (a < first) ⊎ (first + m ≤ a)
        → get_or counts.new a 0 ≡ get_or counts.old a 0 }
{
    for a in 0..m {
        counts[first + a] += gains[a + from] as u32;
    }
}

// The least and the most of some entries.
#[derive(Clone, Copy)]
struct Extremes {
    pub low: u32,
    pub high: u32,
}

// The least and the most of the entries below m.
fn least_and_most(counts: &[u32], m: usize) -> Extremes
    requires { (0 < m) × (m ≤ length counts.now) }
    ensures by_index { (a : ℕ) → a < m → result.low ≤ get_or counts.now a 0 }
    ensures by_index_2 { (a : ℕ) → a < m → get_or counts.now a 0 ≤ result.high }
{
    let mut low = counts[0];
    let mut high: u32 = 0;
    // std's min and max make encoding slower by up to a tenth
    for count in &counts[..m] {
        if *count < low {
            low = *count;
        }
        if high < *count {
            high = *count;
        }
    }
    Extremes { low, high }
}

// The next power of two above n; 0 where n is 0 or it has no room. Its callers test what they take from it.
fn power_above(n: u32) -> u32 {
    if n == 0 {
        return 0;
    }
    2u32 << (checks(n) - 1)
}

// How many numbers follow `high` before the next power of two above `low`.
fn room(low: u32, high: u32) -> u32
    ensures { result + high < 2 ^ 32 }
{
    let limit = power_above(low);
    if high < limit { limit - 1 - high } else { 0 }
}

// How many times `more` can be added to `high`, with no power of two above `low` reached? It counts the powers up to both.
fn times_free(low: u32, high: u32, more: u32) -> u32
    requires { 0 < more }
    ensures { 0 < result → checks low ≡ checks (high + result * more) }
{
    let times = room(low, high) / more;
    if checks(low) == checks(high + times * more) {
        times
    } else {
        0
    }
}

// For how many lines ahead, which give at most `more` cells to a class each, does no class below m reach a power of two?
fn free_lines(counts: &[u32], m: usize, more: u32) -> u32
    requires { (0 < m) × (m ≤ length counts.now) × (0 < more) }
    ensures { NoPowerNear m (result * more) counts.now }
{
    let all = least_and_most(counts, m);
    times_free(all.low, all.high, more)
}

// The same, where `free` lines are known: the counts are looked at only where it is 0.
fn look_ahead(counts: &[u32], m: usize, more: u32, free: u32) -> u32
    requires m_nonzero { (0 < m) × (m ≤ length counts.now) × (0 < more) }
    requires no_power_near { NoPowerNear m (free * more) counts.now }
    ensures { NoPowerNear m (result * more) counts.now }
{
    if free > 0 {
        return free;
    }
    free_lines(counts, m, more)
}

// Where a check stands, as one number.
fn place_number(a: usize, position: u32) -> u16
    requires { (a < max_classes) × (0 < position) }
    ensures { result ≡ a * 32 + (checks position - 1) }
{
    (a * 32 + (checks(position) - 1) as usize) as u16
}

// Puts a cell at the end of the list, with its place, where there is room.
fn put(cells: &mut [u16], places: &mut [u16], amount: usize, cell: u16, place: u16) -> usize
    requires { (max_checks ≤ length cells.old) × (max_checks ≤ length places.old) }
    ensures upper_bound { amount ≤ max_checks → result ≤ max_checks }
    ensures put_last { amount < max_checks
        → PutLast amount result cell place cells.old places.old cells.new
        places.new }
{
    if amount < MAX_CHECKS {
        cells[amount] = cell;
        places[amount] = place;
        return amount + 1;
    }
    amount
}

// Passes a cell of class a: it is counted and, where it holds a check, listed. Gives the length of the list.
fn list_cell(
    sizes: &[u32; Shape::MAX_CLASSES],
    counts: &mut [u32; Shape::MAX_CLASSES],
    cells: &mut [u16; MAX_CHECKS],
    places: &mut [u16; MAX_CHECKS],
    cell: usize,
    a: usize,
    amount: usize,
) -> usize
    requires { (a < max_classes) × (cell < max_cells) × (get_or counts.old a 0 < max_cells) }
    ensures { (L : Layout)
        → L.class cell ≡ a
        → checks_to L (cell + 1) ≤ max_checks
        → ListedTo L cell amount sizes.now counts.old cells.old
        places.old
        → ListedTo L (cell + 1) result sizes.now counts.new cells.new
        places.new }
{
    let position = count_in(counts, a);
    if is_check(sizes[a], position) {
        let place = place_number(a, position);
        return put(cells, places, amount, cell as u16, place);
    }
    amount
}

// The first class of the slice of line l. By strength, with one slice, nothing is divided.
fn first_class(pass: Pass, l: usize) -> usize
    requires { OfShape pass × (l < pass.lines) }
    ensures { result ≡ l % pass.slices * pass.period }
{
    if pass.slices == 1 {
        return 0;
    }
    l % pass.slices * pass.period
}

// Passes line l, whose cells it takes one by one.
fn list_line(
    pass: Pass,
    line: Line,
    l: usize,
    sizes: &[u32; Shape::MAX_CLASSES],
    counts: &mut [u32; Shape::MAX_CLASSES],
    cells: &mut [u16; MAX_CHECKS],
    places: &mut [u16; MAX_CHECKS],
    amount: usize,
) -> usize
    requires of_shape { OfShape pass × (l < pass.lines) × LineOf pass l line }
    requires lines_listed { LinesListed pass l amount sizes.now counts.old cells.old places.old }
    ensures { LinesListed pass (l + 1) result sizes.now counts.new cells.new
        places.new }
{
    let cell = l * pass.columns;
    let first = first_class(pass, l);
    let mut n = amount;
    let mut a = line.start;
    for x in 0..pass.columns {
        n = list_cell(sizes, counts, cells, places, cell + x, first + a, n);
        a = next_place(a, pass.period);
    }
    n
}

// How far the list has come: its length, and for how many lines ahead no class reaches a power of two.
#[derive(Clone, Copy)]
struct Progress {
    pub amount: usize,
    pub free: u32,
}

// Passes line l: by its gains where it can hold no check, and else cell by cell.
fn list_or_count(
    pass: Pass,
    line: Line,
    l: usize,
    sizes: &[u32; Shape::MAX_CLASSES],
    gains: &[u16],
    counts: &mut [u32; Shape::MAX_CLASSES],
    cells: &mut [u16; MAX_CHECKS],
    places: &mut [u16; MAX_CHECKS],
    at: Progress,
) -> Progress
    requires of_shape { OfShape pass × (l < pass.lines) × LineOf pass l line }
    requires period_in_bounds { (2 * pass.period ≤ length gains.now)
        × Gains pass.period pass.columns (2 * pass.period) gains.now }
    requires lines_listed { LinesListed pass l at.amount sizes.now counts.old cells.old places.old }
    requires free_ahead { FreeAhead pass at.free counts.old }
    ensures lines_listed_2 { LinesListed pass (l + 1) result.amount sizes.now counts.new
        cells.new places.new }
    ensures free_ahead_2 { FreeAhead pass result.free counts.new }
{
    let m = pass.period;
    let free = look_ahead(counts, pass.classes, (pass.columns / m) as u32 + 1, at.free);
    if free > 0 {
        let first = first_class(pass, l);
        count_line(counts, gains, m, first, m - line.start);
        return Progress {
            amount: at.amount,
            free: free - 1,
        };
    }
    let amount = list_line(pass, line, l, sizes, counts, cells, places, at.amount);
    Progress { amount, free: 0 }
}

// Passes every line. At entry the counts are 0.
fn list_lines(
    pass: Pass,
    sizes: &[u32; Shape::MAX_CLASSES],
    gains: &[u16],
    counts: &mut [u32; Shape::MAX_CLASSES],
    cells: &mut [u16; MAX_CHECKS],
    places: &mut [u16; MAX_CHECKS],
) -> usize
    requires of_shape { OfShape pass × ((a : ℕ) → get_or counts.old a 0 ≡ 0) }
    requires period_in_bounds { (2 * pass.period ≤ length gains.now)
        × Gains pass.period pass.columns (2 * pass.period) gains.now }
    ensures { LinesListed pass pass.lines result sizes.now counts.new cells.new
        places.new }
{
    let mut line = Line {
        left: pass.last,
        start: 0,
    };
    let mut at = Progress { amount: 0, free: 0 };
    for l in 0..pass.lines {
        at = list_or_count(pass, line, l, sizes, gains, counts, cells, places, at);
        line = next_line(pass, line);
    }
    at.amount
}

// The cells that hold a check, in byte order, and the place of each, where `sizes` holds the size of each class. Gives their
// number; 0 for a shape that the constructor refuses.
pub fn check_cells(
    shape: Shape,
    sizes: &[u32; Shape::MAX_CLASSES],
    cells: &mut [u16; MAX_CHECKS],
    places: &mut [u16; MAX_CHECKS],
) -> usize
    ensures lists_checks { Accepted shape
        → HoldsSizes (layout_of shape) sizes.now (cells_of shape)
        → ListsChecks (layout_of shape) (cells_of shape) result cells.new
        × HoldsPlaces (layout_of shape) result cells.new places.new }
    ensures upper_bound { result ≤ max_checks }
{
    let Ok(()) = shape.tests() else {
        return 0;
    };
    let pass = shape.pass();
    let mut gained = [0u16; 1024];
    fill_gains(&mut gained, pass.period, pass.columns);
    let mut counts = [0u32; Shape::MAX_CLASSES];
    list_lines(pass, sizes, &gained, &mut counts, cells, places)
}
