// The data cells of a field filled plane by plane, and run by run between the cells that hold a check.
ghost use Rattle.std.specs.Prelude.{◌≡◌, ◌≤◌, length};
ghost use Rattle.lattice.specs.Listing.{max_checks};
ghost use Rattle.lattice.specs.Shape.{cells_of};
ghost use Rattle.codec.specs.Filling.{RunEnd, ChecksListed, AtPlane, Filled, plane_cells, data_buffer};

use crate::scatter::scatter_run;
use lattice::shape::Shape;
use passes::check_cells::MAX_CHECKS;

// The number of cells of a plane.
fn plane_cells(shape: Shape) -> usize
    ensures { result ≡ plane_cells shape }
{
    shape.rows as usize * shape.columns as usize
}

// Where the run that k checks stand before ends: at the k-th check or at `end`, whichever is first.
fn run_end(checks: &[u16; MAX_CHECKS], amount: usize, k: usize, end: usize) -> usize
    requires { amount ≤ max_checks }
    ensures { (result ≤ end) × RunEnd checks.now amount k end result }
{
    if k < amount {
        let cell = checks[k] as usize;
        if cell < end {
            return cell;
        }
    }
    end
}

// Fills the plane that begins at cell `at`, at the front of the part lent, with 0 in the check cells; gives the number of checks
// up to its end.
fn fill_plane(
    shape: Shape,
    payload: &[u8],
    checks: &[u16; MAX_CHECKS],
    amount: usize,
    at: usize,
    first: usize,
    part: &mut [u8],
) -> usize
    requires checks_listed { ChecksListed shape payload.now checks.now amount }
    requires at_plane { AtPlane shape part.old at first }
    ensures { Filled shape payload.now part.old part.new at result (plane_cells shape) }
{
    let end = at + plane_cells(shape);
    let mut k = first;
    let mut from = at;
    let mut to = run_end(checks, amount, k, end);
    // its step is from check to check, up to the plane's end
    while to < end {
        scatter_run(payload, part, at, k, from, to);
        part[to - at] = 0;
        from = to + 1;
        k += 1;
        to = run_end(checks, amount, k, end);
    }
    scatter_run(payload, part, at, k, from, end);
    k
}

// Fills the planes one by one, each in its own stretch of the field.
pub(crate) fn fill_planes(
    shape: Shape,
    payload: &[u8],
    checks: &[u16; MAX_CHECKS],
    amount: usize,
    field: &mut [u8],
)
    requires checks_listed { ChecksListed shape payload.now checks.now amount }
    requires field_len { length field.old ≡ cells_of shape }
    ensures { field.new ≡ data_buffer shape payload.now }
{
    let cells = plane_cells(shape);
    let planes = shape.planes as usize;
    let mut k = 0;
    for z in 0..planes {
        let at = z * cells;
        k = fill_plane(shape, payload, checks, amount, at, k, &mut field[at..]);
    }
}
