// Each operation on the shape of any numbers: the constructor's refusal is the operation's.
ghost use Rattle.lattice.specs.Answer.{IsCellClass};
ghost use Rattle.lattice.specs.Cell.{cell};
ghost use Rattle.lattice.specs.Shape.{shape_from};
ghost use Rattle.codec.specs.Answer.{IsPlan, IsEncoded, IsDecoded, IsCorrected};
ghost use Rattle.levels.specs.Answer.{IsEncodedLevels, IsDecodedLevels, IsCorrectedLevels};

use codec::correct::correct;
use codec::decode::decode;
use codec::encode::encode;
use codec::plan::{FieldPlan, plan};
use lattice::refusal::Refusal;
use lattice::shape::{Shape, ShapeNumbers};
use levels::correct::correct_levels;
use levels::decode::decode_levels;
use levels::encode::encode_levels;

pub fn plan_of(shape: ShapeNumbers) -> Result<FieldPlan, Refusal>
    ensures { IsPlan (shape_from shape) result }
{
    plan(Shape::new(shape)?)
}

pub fn class_of(
    shape: ShapeNumbers,
    row: usize,
    plane: usize,
    column: usize,
) -> Result<usize, Refusal>
    ensures { IsCellClass (shape_from shape) (cell row plane column) result }
{
    Shape::new(shape)?.class_of(row, plane, column)
}

pub fn encode_in(shape: ShapeNumbers, payload: &[u8], field: &mut [u8]) -> Result<(), Refusal>
    ensures { IsEncoded (shape_from shape) payload.now field.old field.new result }
{
    encode(Shape::new(shape)?, payload, field)
}

pub fn decode_in(shape: ShapeNumbers, payload: &mut [u8], field: &[u8]) -> Result<usize, Refusal>
    ensures { IsDecoded (shape_from shape) payload.old field.now payload.new result }
{
    decode(Shape::new(shape)?, payload, field)
}

pub fn correct_in(shape: ShapeNumbers, field: &mut [u8]) -> Result<usize, Refusal>
    ensures { IsCorrected (shape_from shape) field.old field.new result }
{
    correct(Shape::new(shape)?, field)
}

pub fn encode_levels_in(
    shape: ShapeNumbers,
    payload: &[u8],
    field: &mut [u8],
) -> Result<(), Refusal>
    ensures { IsEncodedLevels (shape_from shape) payload.now field.old field.new result }
{
    encode_levels(Shape::new(shape)?, payload, field)
}

pub fn decode_levels_in(
    shape: ShapeNumbers,
    payload: &mut [u8],
    field: &[u8],
) -> Result<usize, Refusal>
    ensures { IsDecodedLevels (shape_from shape) payload.old field.now payload.new result }
{
    decode_levels(Shape::new(shape)?, payload, field)
}

pub fn correct_levels_in(shape: ShapeNumbers, field: &mut [u8]) -> Result<usize, Refusal>
    ensures { IsCorrectedLevels (shape_from shape) field.old field.new result }
{
    correct_levels(Shape::new(shape)?, field)
}
