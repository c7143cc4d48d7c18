// What the operators and tests make of values: `left` and `right` are the operands.
ghost use Rattle.std.specs.Prelude.{◌≡◌};
ghost use Rattle.language.specs.Values.{sum, less_than, either_true};
ghost use Rattle.language.specs.Reference.{as_truth, as_whole};
ghost use Rattle.run.specs.Evaluation.{operator_value};

use language::{Kind, Number, Stop, Value};

// The plus at a node.
fn add(at: usize, left: Value, right: Value) -> Result<Value, Stop>
    ensures sum { result ≡ sum at left right }
{
    let sum = whole_of(left)?.checked_add(whole_of(right)?);
    sum.map(Value::Whole).ok_or(Stop::Sum(at))
}

fn less(left: Value, right: Value) -> Result<Value, Stop>
    ensures less { result ≡ less_than left right }
{
    Ok(Value::Truth(whole_of(left)? < whole_of(right)?))
}

fn either(left: Value, right: Value) -> Result<Value, Stop>
    ensures either { result ≡ either_true left right }
{
    let (x, y) = (truth_of(left)?, truth_of(right)?);
    Ok(Value::Truth(x || y))
}

// What the operator at a node makes of two values; a node of another kind is none.
pub(crate) fn operate(kind: Kind, at: usize, left: Value, right: Value) -> Result<Value, Stop>
    ensures operated { result ≡ operator_value kind at left right }
{
    match kind {
        Kind::Plus => add(at, left, right),
        Kind::Less => less(left, right),
        Kind::Or => either(left, right),
        _ => Err(Stop::Stuck),
    }
}

// This and the next are no `TryFrom`: its error would be one more type, for the same stop.
pub(crate) fn truth_of(value: Value) -> Result<bool, Stop>
    ensures truth { result ≡ as_truth value }
{
    match value {
        Value::Truth(b) => Ok(b),
        Value::Whole(_) => Err(Stop::Stuck),
    }
}

pub(crate) fn whole_of(value: Value) -> Result<Number, Stop>
    ensures whole { result ≡ as_whole value }
{
    match value {
        Value::Whole(number) => Ok(number),
        Value::Truth(_) => Err(Stop::Stuck),
    }
}
