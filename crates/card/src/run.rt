// A card text answered: the tests in their order, then the operation.
ghost use Rattle.std.specs.Prelude.{true, false, ◌≡◌, ◌+◌, length};
ghost use Rattle.lattice.specs.Shape.{cells_of};
ghost use Rattle.codec.specs.Payload.{Bytes};
ghost use Rattle.card.specs.Card.{max_input, max_answer};
ghost use Rattle.card.specs.Program.{is_payload, blank_payload, answer, output_leaves};
ghost use Rattle.card.specs.Working.{Answered, CardShape, HeaderRead, BodyRead, encoded_text, decoded_text};

use crate::body::{fill_cells, fill_payload, is_payload, payload_bytes, payload_ok, rows_ok};
use crate::header::{Header, parse_header};
use crate::reply::{refuse, reply_field, reply_payload};
use codec::decode::decode;
use codec::encode::encode;
use lattice::refusal::Refusal;
use lattice::shape::Shape;

// The longest input.
const MAX_INPUT: usize = 65536;

// How much of the input is read: enough to tell that it is too long.
pub const MAX_READ: usize = 65537;

// The longest answer.
pub const MAX_ANSWER: usize = 36946;

// The most cells of a card, and the most bytes of a payload that they hold.
const MAX_CELLS: usize = 16384;

const MAX_BYTES: usize = 2048;

// Writes a payload into a field of the card's cells.
fn write_card(
    header: Header,
    shape: Shape,
    payload: &[u8],
    field: &mut [u8],
    output: &mut [u8],
) -> usize
    requires card_shape { CardShape header shape }
    requires bytes { Bytes payload.now }
    requires field_len { length field.old ≡ cells_of shape }
    ensures { Answered (encoded_text header payload.now) output.old output.new result }
{
    match encode(shape, payload, field) {
        Ok(()) => reply_field(header, shape.classes(), field, output),
        Err(why) => refuse(why, output),
    }
}

// Reads a field into a payload of the plan's length.
fn read_card(
    header: Header,
    shape: Shape,
    field: &[u8],
    payload: &mut [u8],
    output: &mut [u8],
) -> usize
    requires card_shape { CardShape header shape }
    requires payload_value { payload.old ≡ blank_payload header }
    ensures { Answered (decoded_text header field.now) output.old output.new result }
{
    match decode(shape, payload, field) {
        Ok(count) => reply_payload(header, count, payload, output),
        Err(why) => refuse(why, output),
    }
}

// The answer where a payload follows the header.
fn answer_payload(
    input: &[u8],
    header: Header,
    next: usize,
    shape: Shape,
    output: &mut [u8],
) -> usize
    requires body_read { BodyRead input.now header next shape }
    requires next_value { is_payload input.now next ≡ true }
    ensures { Answered (answer input.now) output.old output.new result }
{
    if !payload_ok(input, next) {
        return refuse(Refusal::BadForm, output);
    }
    let bytes = payload_bytes(input, next);
    if bytes > MAX_BYTES {
        return refuse(Refusal::PayloadLength, output);
    }
    let cells = shape.cells();
    let mut payload = [0u8; MAX_BYTES];
    let mut field = [0u8; MAX_CELLS];
    fill_payload(input, next, &mut payload[..bytes]);
    write_card(
        header,
        shape,
        &payload[..bytes],
        &mut field[..cells],
        output,
    )
}

// The answer where no payload follows the header: rows.
fn answer_rows(input: &[u8], header: Header, next: usize, shape: Shape, output: &mut [u8]) -> usize
    requires body_read { BodyRead input.now header next shape }
    requires next_value { is_payload input.now next ≡ false }
    ensures { Answered (answer input.now) output.old output.new result }
{
    if !rows_ok(
        input,
        next,
        shape.columns,
        shape.planes as u32 * shape.rows as u32,
    ) {
        return refuse(Refusal::BadForm, output);
    }
    let cells = shape.cells();
    let bytes = shape.capacity() / 8;
    let mut field = [0u8; MAX_CELLS];
    let mut payload = [0u8; MAX_BYTES];
    fill_cells(input, next, shape.columns as usize, &mut field[..cells]);
    read_card(
        header,
        shape,
        &field[..cells],
        &mut payload[..bytes],
        output,
    )
}

// The answer to an input with a header.
fn answer_header(input: &[u8], header: Header, next: usize, output: &mut [u8]) -> usize
    requires { HeaderRead input.now header next }
    ensures { Answered (answer input.now) output.old output.new result }
{
    match Shape::new(header.shape_numbers()) {
        Err(why) => refuse(why, output),
        Ok(shape) => {
            if shape.cells() > MAX_CELLS {
                return refuse(Refusal::BadForm, output);
            }
            if is_payload(input, next) {
                return answer_payload(input, header, next, shape, output);
            }
            answer_rows(input, header, next, shape, output)
        }
    }
}

// Writes the answer to an input at the front of the output, and gives its length; an output that is too short keeps its bytes.
pub fn answer_card(input: &[u8], output: &mut [u8]) -> usize
    ensures value { result ≡ length (answer input.now) }
    ensures output_after { output.new ≡ output_leaves (answer input.now) output.old }
    ensures max_read_value { MAX_READ ≡ max_input + 1 }
    ensures max_answer_value { MAX_ANSWER ≡ max_answer }
{
    if input.len() > MAX_INPUT {
        return refuse(Refusal::BadForm, output);
    }
    let Some(found) = parse_header(input) else {
        return refuse(Refusal::BadForm, output);
    };
    answer_header(input, found.value, found.next, output)
}
