//! The rows of a report, as they are spelled.
ghost use Rattle.std.specs.Prelude.{◌≡◌, ◌++◌, ◌↔◌, ℕ, List, IfSome, IsOk, IsSomeAnd, OnOk, IsOkUnless};
ghost use Rattle.ssb_reports.specs.Report.{count_text, row_text};

use cube_model::Fault;
use ssb_reports::{Fields, write_count, write_joined};
use wire::push_bytes;

/// Makes a buffer the row of some fields and of others after them.
pub(crate) fn spell_row<F: Fields, G: Fields>(
    row: &mut Vec<u8>,
    fields: &F,
    others: &G,
) -> Result<(), Fault>
    ensures ok { OnOk result (row.new.items ≡ row_text (F.texts fields.now ++ G.texts others.now)) }
    ensures only { IsOkUnless result Fault.Memory }
{
    row.clear();
    in_memory(write_joined(row, b'|', fields, others))?;
    push_bytes(row, b"\n")
}

/// Makes a buffer the line of how many lines there are.
pub(crate) fn spell_count(row: &mut Vec<u8>, count: usize) -> Result<(), Fault>
    ensures ok { OnOk result (row.new.items ≡ count_text count) }
    ensures only { IsOkUnless result Fault.Memory }
{
    row.clear();
    in_memory(write_count(row, count))
}

// What became of bytes that were written to a vector, which takes all of them unless memory runs out.
fn in_memory(written: Result<(), Fault>) -> Result<(), Fault>
    ensures ok { IsOk result ↔ IsOk written }
    ensures only { IsOkUnless result Fault.Memory }
{
    written.map_err(|_| Fault::Memory)
}

/// What is after the front of a text, where it begins so.
pub(crate) fn after<'a>(text: &'a [u8], front: &[u8]) -> Option<&'a [u8]>
    ensures some { IfSome result (λ left. text.now ≡ front.now ++ left.now) }
    ensures begins { (left : List ℕ) → text.now ≡ front.now ++ left → IsSomeAnd result (λ rest. rest.now ≡ left) }
{
    if text.len() < front.len() {
        return None;
    }
    let (first, left) = text.split_at(front.len());
    if first == front { Some(left) } else { None }
}
