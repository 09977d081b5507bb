// The positions of a line's cells in their classes, as a list that is stepped from line to line: the cell in column x of a line
// that begins at `start` in the table of classes has the position e[start + x].
ghost use Rattle.std.specs.Prelude.{true, cond, ◌≡◌, ℕ, ◌+◌, ◌-◌, ◌%◌, ◌<◌, ◌≤◌, ltb, length, get_or};
ghost use Rattle.lattice.specs.declared.shape.Shape.{Shape};
ghost use Rattle.lattice.specs.Shape.{Accepted};
ghost use Rattle.lattice.specs.Position.{Layout};
ghost use Rattle.lattice.specs.Lines.{pass_of, round, Repeats, Positions, Gains, Room, Small, AtLine, Ready};

use lattice::line::{Line, Pass, next_line};
use lattice::range::within;

// 1 more below gap.
pub(crate) fn raised(z: usize, gap: usize, up: u16) -> u16
    requires { up < 65535 }
    ensures { result ≡ up + cond (ltb z gap) 1 0 }
{
    if z < gap { up + 1 } else { up }
}

// The places below m: up, and 1 more below gap.
fn fill_low(p: &mut [u16], m: usize, gap: usize, up: u16)
    requires { (m ≤ length p.old) × (up < 65535) }
    ensures { (z : ℕ) → z < m → get_or p.new z 0 ≡ up + cond (ltb z gap) 1 0 }
{
    for (z, place) in p[..m].iter_mut().enumerate() {
        *place = raised(z, gap, up);
    }
}

// The places from m on: those m places before, with d more.
fn repeat(p: &mut [u16], m: usize, d: u16)
    requires m_nonzero { (0 < m) × (m ≤ length p.old) × (length p.old ≤ 4096) × (d ≤ 1) }
    requires by_index { (z : ℕ) → z < m → get_or p.old z 0 ≤ 32768 }
    ensures by_index_2 { (z : ℕ) → z < m → get_or p.new z 0 ≡ get_or p.old z 0 }
    ensures repeats { Repeats m d (length p.old) p.new }
{
    for z in m..p.len() {
        p[z] = p[z - m] + d;
    }
}

// The list of the first line.
fn first_positions(e: &mut [u16], m: usize)
    requires { (0 < m) × (m ≤ length e.old) × (length e.old ≤ 4096) }
    ensures { (L : Layout) (table : ℕ → ℕ) (off : ℕ)
        → Positions L m table 0 off 0 (length e.old) e.new }
{
    fill_low(e, m, 0, 1);
    repeat(e, m, 1);
}

// What a stretch of n places of the table gives to each remainder.
pub(crate) fn gains(p: &mut [u16], m: usize, n: usize)
    requires { (0 < m) × (m ≤ length p.old) × (length p.old ≤ 4096) × (n < 32768) }
    ensures { Gains m n (length p.old) p.new }
{
    fill_low(p, m, n % m, (n / m) as u16);
    repeat(p, m, 0);
}

// The step of the list: what is gained from the place `from` on, less `down`, in 16 bits.
fn advance(e: &mut [u16], p: &[u16], from: usize, down: u16)
    requires { length e.old + from ≤ length p.now }
    ensures { (y : ℕ)
        → y < length e.old
        → get_or e.new y 0
        ≡ (get_or e.old y 0 + get_or p.now (y + from) 0 + (65536 - down)) % 65536 }
{
    let less = 65536 - down as u32;
    for (y, position) in e.iter_mut().enumerate() {
        *position = ((*position as u32 + p[y + from] as u32 + less) % 65536) as u16;
    }
}

// Do the lists have room for a pass, and are its numbers small?
fn has_room(pass: Pass, e: usize, p: usize, q: usize) -> bool
    ensures small { result ≡ true → Small pass e p q }
    ensures value { (s : Shape) → Accepted s → pass ≡ pass_of s → Room pass e p q → result ≡ true }
{
    if !within(1, e, pass.period) {
        return false;
    }
    if !within(pass.period, 4096, p) {
        return false;
    }
    if !within(pass.period, 4096, q) {
        return false;
    }
    if e > 4096 {
        return false;
    }
    if pass.columns > 4096 {
        return false;
    }
    if pass.row > 4096 {
        return false;
    }
    pass.plane <= 4096
}

// Fills lists that have room.
fn fill_lists(pass: Pass, e: &mut [u16], p: &mut [u16], q: &mut [u16])
    requires { Small pass (length e.old) (length p.old) (length q.old) }
    ensures positions { (L : Layout) (table : ℕ → ℕ) (off : ℕ)
        → Positions L pass.period table 0 off 0 (length e.old) e.new }
    ensures gains { Gains pass.period (pass.columns + pass.row) (length p.old) p.new }
    ensures gains_2 { Gains pass.period (pass.columns + pass.plane) (length q.old) q.new }
{
    first_positions(e, pass.period);
    gains(p, pass.period, pass.columns + pass.row);
    gains(q, pass.period, pass.columns + pass.plane);
}

// Fills the lists for a pass over a slice: e with the positions of its first line, p and q with what a line and its step give, to
// the next row and to the next plane; where they have no room they stay. Gives the first line.
pub fn first_line(pass: Pass, e: &mut [u16], p: &mut [u16], q: &mut [u16]) -> Line
    ensures { (s : Shape)
        → Accepted s
        → pass ≡ pass_of s
        → Room pass (length e.old) (length p.old) (length q.old)
        → ((j : ℕ) → j < pass.slices → j < pass.lines → AtLine s j result e.new)
        × Ready pass (length e.old) p.new q.new }
{
    if has_room(pass, e.len(), p.len(), q.len()) {
        fill_lists(pass, e, p, q);
    }
    Line {
        left: pass.last,
        start: 0,
    }
}

// The step of the list to a line that begins at `next`, `back` places before `start`; where p has no room it stays.
fn step(e: &mut [u16], p: &[u16], m: usize, start: usize, back: usize, next: usize)
    ensures { next ≤ m
        → length e.old + m ≤ length p.now
        → (y : ℕ)
        → y < length e.old
        → get_or e.new y 0
        ≡
        (get_or e.old y 0
        + get_or p.now (y + (m - next)) 0
        + (65536 - round start back))
        % 65536 }
{
    if m < next {
        return;
    }
    let from = m - next;
    if p.len() < from {
        return;
    }
    if p.len() - from < e.len() {
        return;
    }
    advance(e, p, from, raised(start, back, 0));
}

// Steps the list to the line after in its slice, which is given. With one class, where a position may need 17 bits, the list does
// not serve.
pub fn next_positions(pass: Pass, line: Line, e: &mut [u16], p: &[u16], q: &[u16]) -> Line
    ensures { (s : Shape)
        → Accepted s
        → pass ≡ pass_of s
        → 2 ≤ pass.classes
        → Ready pass (length e.old) p.now q.now
        → (l : ℕ)
        → l + pass.slices < pass.lines
        → AtLine s l line e.old
        → AtLine s (l + pass.slices) result e.new }
{
    let next = next_line(pass, line);
    if line.left > 0 {
        step(e, p, pass.period, line.start, pass.row, next.start);
    } else {
        step(e, q, pass.period, line.start, pass.plane, next.start);
    }
    next
}
