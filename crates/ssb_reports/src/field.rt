//! The fields of a report's lines.
ghost use Rattle.std.specs.Prelude.{ℕ, List, ◌++◌, codes};
ghost use Rattle.cube_model.specs.Names.{attr_name, agg_name, measure_name};
ghost use Rattle.ssb_reports.specs.Report.{member_text, value_text};
ghost use Rattle.ssb_reports.specs.Writing.{Writes};

use crate::writing::{write_bytes, write_number};
use cube_model::{Agg, Attr, Fault, Fraction, Measure, Member, Value};
use std::io::Write;

/// What is between two bars of a report.
pub trait Field {
    // the bytes that are there
    ghost text: { Self → List ℕ };

    /// Hands a writer the bytes.
    fn write_to<W: Write>(&self, out: &mut W) -> Result<(), Fault>
        ensures { Writes (W.contents out.old) (W.contents out.new) result (text self.now) };
}

impl Field for Attr {
    ghost text = { attr_name };

    fn write_to<W: Write>(&self, out: &mut W) -> Result<(), Fault> {
        write_bytes(out, self.name().as_bytes())
    }
}

impl Field for Agg {
    ghost text = { agg_name };

    fn write_to<W: Write>(&self, out: &mut W) -> Result<(), Fault> {
        match *self {
            Agg::Count => write_bytes(out, b"count"),
            Agg::Sum(measure) => write_aggregate(out, b"sum(", measure),
            Agg::Min(measure) => write_aggregate(out, b"min(", measure),
            Agg::Max(measure) => write_aggregate(out, b"max(", measure),
            Agg::Avg(measure) => write_aggregate(out, b"avg(", measure),
        }
    }
}

impl Field for Member {
    ghost text = { member_text };

    fn write_to<W: Write>(&self, out: &mut W) -> Result<(), Fault> {
        match self {
            Member::Text(text) => write_bytes(out, text.as_slice()),
            Member::All => write_bytes(out, b"ALL"),
        }
    }
}

impl Field for Value {
    ghost text = { value_text };

    fn write_to<W: Write>(&self, out: &mut W) -> Result<(), Fault> {
        match *self {
            Value::Whole(number) => write_number(out, number),
            Value::Ratio(fraction) => write_fraction(out, fraction),
        }
    }
}

fn write_aggregate<W: Write>(out: &mut W, opening: &[u8], measure: Measure) -> Result<(), Fault>
    ensures { Writes (W.contents out.old) (W.contents out.new) result
        (opening.now ++ (measure_name measure ++ codes ")")) }
{
    write_bytes(out, opening)?;
    write_bytes(out, measure.name().as_bytes())?;
    write_bytes(out, b")")
}

fn write_fraction<W: Write>(out: &mut W, fraction: Fraction) -> Result<(), Fault>
    ensures { Writes (W.contents out.old) (W.contents out.new) result (value_text (Value.Ratio fraction)) }
{
    write_number(out, fraction.numerator)?;
    write_bytes(out, b"/")?;
    write_number(out, fraction.denominator)
}
