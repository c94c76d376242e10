//! Lines that can be read back.
ghost use Rattle.std.specs.Prelude.{◌≡◌, ◌++◌, [], ◌∷◌, None, true, OnErr, OnOk};
ghost use Rattle.std.specs.Bool.{OnFalse, OnTrue};
ghost use Rattle.std.specs.List.{AllByRecursion, list_all};
ghost use Rattle.cube_model.specs.Ascending.{IsAscending};
ghost use Rattle.cube_model.specs.Orders.{answer_cmp};
ghost use Rattle.partial_reports.specs.Readable.{IsReadableLine, IsWholeNumber};
ghost use Rattle.partial_reports.specs.Members.{is_plain_member};

use crate::members::is_plain_text;
use crate::refused::{Refused, Wrong};
use cube_model::{Line, Member, Query, Value};
use std::cmp::Ordering;

/// Checks that a line has a member for each column and a whole number for each aggregate, and its members can be read
/// back.
#[tactic(auto, using(crate::proofs::ReadableLemmas::plain_members))]
pub(crate) fn check_readable(number: u64, query: &Query, line: &Line) -> Result<(), Refused>
    ensures ok { OnOk result (IsReadableLine query.now line.now) }
    ensures refused { OnErr result (IsReadableLine query.now line.now → ⊥) }
{
    if line.key.len() != query.columns.len() {
        return Err(Refused::at(number, Wrong::FieldCount));
    }
    if line.values.len() != query.aggregates.len() {
        return Err(Refused::at(number, Wrong::FieldCount));
    }
    if !are_plain(line.key.as_slice()) {
        return Err(Refused::at(number, Wrong::Field));
    }
    if !are_whole(line.values.as_slice()) {
        return Err(Refused::at(number, Wrong::Field));
    }
    Ok(())
}

fn are_plain(key: &[Member]) -> bool
    ensures { result ≡ list_all is_plain_member key.now }
{
    key.iter().all(|member| is_plain(member))
}

fn is_plain(member: &Member) -> bool
    ensures { result ≡ is_plain_member member.now }
{
    match member {
        Member::Text(text) => is_plain_text(text.as_slice()),
        Member::All => true,
    }
}

fn are_whole(values: &[Value]) -> bool
    ensures whole { OnTrue result (AllByRecursion IsWholeNumber values.now) }
    ensures only { OnFalse result (AllByRecursion IsWholeNumber values.now → ⊥) }
{
    for value in values {
        if !is_whole(*value) {
            return false;
        }
    }
    true
}

fn is_whole(value: Value) -> bool
    ensures whole { OnTrue result (IsWholeNumber value) }
    ensures only { OnFalse result (IsWholeNumber value → ⊥) }
{
    match value {
        Value::Whole(_) => true,
        Value::Ratio(_) => false,
    }
}

/// Checks that the key of a line is above those of lines in the order of their keys.
#[tactic(auto, using(crate::proofs::Rising::rising_on))]
pub(crate) fn check_follows(number: u64, lines: &[Line], line: &Line) -> Result<(), Refused>
    requires { IsAscending (answer_cmp None) lines.now }
    ensures ok { OnOk result (IsAscending (answer_cmp None) (lines.now ++ line.now ∷ [])) }
    ensures refused { OnErr result (IsAscending (answer_cmp None) (lines.now ++ line.now ∷ []) → ⊥) }
{
    let Some((last, _)) = lines.split_last() else {
        return Ok(());
    };
    match last.key.cmp(&line.key) {
        Ordering::Less => Ok(()),
        _ => Err(Refused::at(number, Wrong::KeyOrder)),
    }
}
