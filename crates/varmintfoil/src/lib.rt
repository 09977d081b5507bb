// The C interface: each operation on the numbers of a shape, of any size, and lent buffers. `include/varmintfoil.h` declares it
// for C.
#![tactic(auto)]

ghost use Rattle.std.specs.Prelude.{◌≡◌};
ghost use Rattle.lattice.specs.Cell.{cell};
ghost use Rattle.lattice.specs.Shape.{shape_from};
ghost use Rattle.varmintfoil.specs.Boundary.{as_number, IsPlanResult, IsClassResult, IsEncodeResult, IsDecodeResult};
ghost use Rattle.varmintfoil.specs.Boundary.{IsCorrectResult, IsDistanceResult};
ghost use Rattle.varmintfoil.specs.Boundary.{IsEncodeLevelResult, IsDecodeLevelResult, IsCorrectLevelResult};

mod operations;

use crate::operations::{
    class_of, correct_in, correct_levels_in, decode_in, decode_levels_in, encode_in,
    encode_levels_in, plan_of,
};
use codec::plan::figures;
use lattice::distance::{distance_test, failing, holds, tried};
use lattice::refusal::{figure, number};
use lattice::shape::ShapeNumbers;

#[repr(C)]
#[derive(Clone, Copy)]
pub struct PlanResult {
    pub number: usize,
    pub classes: usize,
    pub capacity: usize,
    pub bytes: usize,
    pub cells: usize,
    pub used: usize,
    pub digits: usize,
}

#[repr(C)]
#[derive(Clone, Copy)]
pub struct ClassResult {
    pub number: usize,
    pub class_index: usize,
}

#[repr(C)]
#[derive(Clone, Copy)]
pub struct CountResult {
    pub number: usize,
    pub count: usize,
}

#[repr(C)]
#[derive(Clone, Copy)]
pub struct DistanceResult {
    pub number: usize,
    pub holds: usize,
    pub row: i32,
    pub plane: i32,
    pub column: i32,
    pub tried: usize,
}

// A verdict as a number: 1 for yes and 0 for no.
fn as_number(verdict: bool) -> usize
    ensures { result ≡ as_number verdict }
{
    verdict as usize
}

// The classes, the capacity, the payload's bytes, the cells, the classes that hold a cell and the digits of a field of levels, or
// the refusal 1, 2 or 11.
#[unsafe(no_mangle)]
pub extern "C" fn varmintfoil_plan(shape: ShapeNumbers) -> PlanResult
    ensures { IsPlanResult (shape_from shape) result }
{
    let answer = plan_of(shape);
    let figures = figures(answer);
    PlanResult {
        number: number(&answer),
        classes: figures.classes,
        capacity: figures.capacity,
        bytes: figures.bytes,
        cells: figures.cells,
        used: figures.used,
        digits: figures.digits,
    }
}

// The class of a cell, or the refusal 1, 2, 11 or 4.
#[unsafe(no_mangle)]
pub extern "C" fn varmintfoil_class(
    shape: ShapeNumbers,
    row: usize,
    plane: usize,
    column: usize,
) -> ClassResult
    ensures { IsClassResult (shape_from shape) (cell row plane column) result }
{
    let answer = class_of(shape, row, plane, column);
    ClassResult {
        number: number(&answer),
        class_index: figure(answer),
    }
}

// Writes the field of a payload, or gives the refusal 1, 2, 11, 3 or 4.
#[unsafe(no_mangle)]
pub extern "C" fn varmintfoil_encode(shape: ShapeNumbers, payload: &[u8], field: &mut [u8]) -> usize
    ensures { IsEncodeResult (shape_from shape) payload.now field.old field.new result }
{
    number(&encode_in(shape, payload, field))
}

// Fills the payload and gives the number of cells changed, or gives the refusal 1, 2, 11, 3, 4, 5, 10, 6 or 7.
#[unsafe(no_mangle)]
pub extern "C" fn varmintfoil_decode(
    shape: ShapeNumbers,
    payload: &mut [u8],
    field: &[u8],
) -> CountResult
    ensures { IsDecodeResult (shape_from shape) payload.old field.now payload.new result }
{
    let answer = decode_in(shape, payload, field);
    CountResult {
        number: number(&answer),
        count: figure(answer),
    }
}

// Leaves the corrected field and gives the number of cells changed, or gives the refusal 1, 2, 11, 4, 5, 10, 6 or 7.
#[unsafe(no_mangle)]
pub extern "C" fn varmintfoil_correct(shape: ShapeNumbers, field: &mut [u8]) -> CountResult
    ensures { IsCorrectResult (shape_from shape) field.old field.new result }
{
    let answer = correct_in(shape, field);
    CountResult {
        number: number(&answer),
        count: figure(answer),
    }
}

// Writes the field of levels of a payload of digits, or gives the refusal 1, 2, 11, 3, 4 or 12.
#[unsafe(no_mangle)]
pub extern "C" fn varmintfoil_encode_levels(
    shape: ShapeNumbers,
    payload: &[u8],
    field: &mut [u8],
) -> usize
    ensures { IsEncodeLevelResult (shape_from shape) payload.now field.old field.new result }
{
    number(&encode_levels_in(shape, payload, field))
}

// Fills the payload with the digits of a field of levels and gives the number of word cells that differ, or gives the refusal 1,
// 2, 11, 3, 4, 12 or 6.
#[unsafe(no_mangle)]
pub extern "C" fn varmintfoil_decode_levels(
    shape: ShapeNumbers,
    payload: &mut [u8],
    field: &[u8],
) -> CountResult
    ensures { IsDecodeLevelResult (shape_from shape) payload.old field.now payload.new result }
{
    let answer = decode_levels_in(shape, payload, field);
    CountResult {
        number: number(&answer),
        count: figure(answer),
    }
}

// Leaves the corrected field of levels and gives the number of cells that change, or gives the refusal 1, 2, 11, 4, 12 or 6.
#[unsafe(no_mangle)]
pub extern "C" fn varmintfoil_correct_levels(shape: ShapeNumbers, field: &mut [u8]) -> CountResult
    ensures { IsCorrectLevelResult (shape_from shape) field.old field.new result }
{
    let answer = correct_levels_in(shape, field);
    CountResult {
        number: number(&answer),
        count: figure(answer),
    }
}

// Do the settings keep different cells of one class at least t apart? The refusals are 2 and 9.
#[unsafe(no_mangle)]
pub extern "C" fn varmintfoil_distance_test(
    m: usize,
    b: usize,
    c: usize,
    t: usize,
) -> DistanceResult
    ensures { IsDistanceResult m b c t result }
{
    let answer = distance_test(m, b, c, t);
    let triple = failing(answer);
    DistanceResult {
        number: number(&answer),
        holds: as_number(holds(answer)),
        row: triple.row,
        plane: triple.plane,
        column: triple.column,
        tried: tried(answer) as usize,
    }
}
