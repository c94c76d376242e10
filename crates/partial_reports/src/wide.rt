//! Lines of partial answers while they are merged.
ghost use Rattle.std.specs.Prelude.{◌≡◌, map, IfOk};
ghost use Rattle.cube_model.specs.declared.answer.Member.{Member};
ghost use Rattle.cube_model.specs.declared.answer.Value.TheVariants.{Whole};
ghost use Rattle.partial_reports.specs.Wide.{narrow_line, narrow_lines};

use cube_model::{Fault, Items, Line, Member, Value};
use std::alloc::Global;

/// A line of a partial answer, whose numbers have 128 bits, so that those of many parts can be added in any order.
#[derive(PartialEq, Eq, Drop)]
pub struct WideLine {
    pub key: Items<Member>,
    pub numbers: Items<i128>,
}

/// The lines of a partial answer, with numbers of 128 bits. `BadLayout` where a value is no whole number; or `Memory`.
pub fn widened(alloc: Global, lines: Items<Line>) -> Result<Vec<WideLine>, Fault>
    ensures { IfOk result (λ wide. narrow_lines wide.items ≡ lines) }
{
    let mut wide = Vec::new(alloc);
    for line in lines.into_vec() {
        wide.push(widened_line(alloc, line)?)?;
    }
    Ok(wide)
}

fn widened_line(alloc: Global, line: Line) -> Result<WideLine, Fault>
    ensures { IfOk result (λ wide. narrow_line wide ≡ line) }
{
    let Line { key, values } = line;
    let numbers = numbers_of(alloc, values.as_slice())?;
    Ok(WideLine { key, numbers })
}

// The numbers that are values.
fn numbers_of(alloc: Global, values: &[Value]) -> Result<Items<i128>, Fault>
    ensures { IfOk result (λ numbers. map Whole numbers ≡ values.now) }
{
    let mut numbers = Items::new(alloc);
    for value in values {
        match value {
            Value::Whole(number) => numbers.push(*number as i128)?,
            Value::Ratio(_) => return Err(Fault::BadLayout),
        }
    }
    Ok(numbers)
}
