// The bytes of a cell: the mark (0 free, 1 a truth, 2 a whole number), and then the number.
ghost use Rattle.std.specs.Prelude.{◌≡◌, length};
ghost use Rattle.byte_store.specs.Layout.{number_size, cell_size, bytes_of_number, number_in, cell_bytes, value_in};

use language::{Number, Value};

// How many bytes a number has, and a cell.
const NUMBER: usize = 4;

pub(crate) const CELL: usize = 1 + NUMBER;

// Two's complement, least byte first: with `NUMBER` and `number_in`, all that depends on a number's width.
fn number_bytes(number: Number) -> [u8; NUMBER]
    ensures { result ≡ bytes_of_number number }
{
    number.to_le_bytes()
}

// The number that `number_bytes` wrote. Its bytes lie in a longer row, so no array comes in, as a `From` would take.
fn number_in(bytes: &[u8]) -> Number
    requires { length bytes.now ≡ number_size }
    ensures { result ≡ number_in bytes.now }
{
    Number::from_le_bytes([bytes[0], bytes[1], bytes[2], bytes[3]])
}

// The bytes that stand for a value, or for none. Not a `From`, which has one fact and no name for it.
pub(crate) fn encode(held: Option<Value>) -> [u8; CELL]
    ensures bytes { result ≡ cell_bytes held }
    ensures back { value_in result ≡ held }
{
    let (mark, number) = match held {
        None => (0, 0),
        Some(Value::Truth(truth)) => (1, Number::from(truth)),
        Some(Value::Whole(number)) => (2, number),
    };
    let mut cell = [0; CELL];
    cell[0] = mark;
    cell[1..].copy_from_slice(&number_bytes(number));
    cell
}

// What a cell's bytes stand for. They lie in a longer row, so no array comes in, as a `From` would take.
pub(crate) fn decode(cell: &[u8]) -> Option<Value>
    requires { length cell.now ≡ cell_size }
    ensures { result ≡ value_in cell.now }
{
    let number = number_in(&cell[1..]);
    match cell[0] {
        0 => None,
        1 => Some(Value::Truth(number != 0)),
        _ => Some(Value::Whole(number)),
    }
}
