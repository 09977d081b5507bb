// The scan of the order: the triples are tried one by one, up to the first that fails.
ghost use Rattle.std.specs.Prelude.{◌≡◌, ◌+◌, ◌-◌, ◌<◌, ◌≤◌, nat_abs};
ghost use Rattle.lattice.specs.Order.{columns_at, planes_at, all_rows, order, run, span};
ghost use Rattle.lattice.specs.DistanceTest.{after, scan, fails_at};
ghost use Rattle.lattice.specs.Scanning.{scan_of};

use crate::distance::{Trial, Triple};
use crate::integers::{minus, remaining, scaled, shifted};
use crate::settings::Settings;

// Is column − b × row − c × plane divisible by m?
fn fails(k: Settings, x: Triple) -> bool
    requires { (0 < k.m) × (nat_abs x.row < 512) × (nat_abs x.plane < 512) × (nat_abs x.column < 512) }
    ensures { result ≡ fails_at k x }
{
    let by_row = scaled(k.b, x.row);
    let by_plane = scaled(k.c, x.plane);
    (x.column - by_row - by_plane) % k.m as i32 == 0
}

// Tries the triples of a row and a plane at `count` columns from `first`.
fn scan_columns(k: Settings, row: i32, plane: i32, first: i32, count: u32) -> Trial
    requires { (0 < k.m) × (nat_abs row < 512) × (nat_abs plane < 512) × (nat_abs first < 64) × (count < 256) }
    ensures result_value { scan_of result ≡ scan k (columns_at row plane (run first count)) }
    ensures tried_le_count { result.tried ≤ count }
{
    for tried in 0..count {
        let column = shifted(first, tried);
        let triple = Triple { row, plane, column };
        if fails(k, triple) {
            return Trial {
                failing: Some(triple),
                tried: tried + 1,
            };
        }
    }
    Trial::nothing(count)
}

// Tries the triples of a row and a plane whose plane and column have an absolute sum of at most n, after `tried` others.
fn scan_plane(k: Settings, row: i32, plane: i32, n: u32, tried: u32) -> Trial
    requires { (0 < k.m) × (nat_abs row < 512) × (nat_abs plane < 512) × (n < 32) × (tried < 500000) }
    ensures result_value { scan_of result ≡ after tried (scan k (columns_at row plane (span (n - nat_abs plane)))) }
    ensures tried_bound { result.tried ≤ tried + 64 }
{
    let width = remaining(n, plane);
    let first = minus(width);
    scan_columns(k, row, plane, first, width + width + 1).after(tried)
}

// Planes and rows are tried each by functions of their own: a block of the one is columns, of the other planes, and one function
// for both would say in its clause which list its closure scans.

// Tries the triples of a row at `count` planes from `first` whose plane and column have an absolute sum of at most n.
fn scan_planes(k: Settings, row: i32, n: u32, first: i32, count: u32) -> Trial
    requires { (0 < k.m) × (nat_abs row < 512) × (n < 32) × (nat_abs first < 64) × (count < 64) }
    ensures result_value { scan_of result ≡ scan k (planes_at row n (run first count)) }
    ensures tried_bound { result.tried ≤ 4096 }
{
    let mut tried = 0;
    for i in 0..count {
        let plane = shifted(first, i);
        let part = scan_plane(k, row, plane, n, tried);
        if part.failing.is_some() {
            return part;
        }
        tried = part.tried;
    }
    Trial::nothing(tried)
}

// Tries the triples of a row of an absolute sum of at most n, after `tried` others.
fn scan_row(k: Settings, row: i32, n: u32, tried: u32) -> Trial
    requires { (0 < k.m) × (nat_abs row < 512) × (n < 32) × (tried < 500000) }
    ensures result_value { scan_of result ≡ after tried (scan k (planes_at row (n - nat_abs row) (span (n - nat_abs row)))) }
    ensures tried_bound { result.tried ≤ tried + 4096 }
{
    let width = remaining(n, row);
    let first = minus(width);
    scan_planes(k, row, width, first, width + width + 1).after(tried)
}

// Tries the triples of the rows 1 to n of an absolute sum of at most n.
fn scan_rows(k: Settings, n: u32) -> Trial
    requires { (0 < k.m) × (n < 32) }
    ensures result_value { scan_of result ≡ scan k (all_rows n) }
    ensures tried_bound { result.tried ≤ 131072 }
{
    let mut tried = 0;
    for i in 0..n {
        let row = shifted(1, i);
        let part = scan_row(k, row, n, tried);
        if part.failing.is_some() {
            return part;
        }
        tried = part.tried;
    }
    Trial::nothing(tried)
}

// Tries the triples of the order for strength n + 1.
pub(crate) fn scan_order(k: Settings, n: u32) -> Trial
    requires { (0 < k.m) × (n < 32) }
    ensures { scan_of result ≡ scan k (order (n + 1)) }
{
    let columns = scan_columns(k, 0, 0, 1, n);
    if columns.failing.is_some() {
        return columns;
    }
    let planes = scan_planes(k, 0, n, 1, n).after(columns.tried);
    if planes.failing.is_some() {
        return planes;
    }
    scan_rows(k, n).after(planes.tried)
}
