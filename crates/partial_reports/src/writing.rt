//! Writing a partial report.
ghost use Rattle.std.specs.Prelude.{◌≡◌, ◌⊎◌, ◌++◌, None, Some, IfErr, IfOk};
ghost use Rattle.ssb_reports.specs.Report.{report_of};
ghost use Rattle.ssb_reports.specs.Writing.{Writes};
ghost use Rattle.partial_reports.specs.Dimensions.{digest_of};
ghost use Rattle.partial_reports.specs.Head.{head_text};
ghost use Rattle.partial_reports.specs.Members.{member_cause};

use crate::asked::PartAsked;
use crate::digests::digest_of;
use crate::members::check_members;
use crate::texts::head_text;
use cube_model::Fault;
use dimensions::Dims;
use ssb_reports::{Lines, write_bytes, write_report};
use std::alloc::Global;
use std::io::Write;

/// The text of the head of a partial report, where all its lines can be read back.
///
/// `BadLayout` where a member has a bar or a line feed, or is the text ALL; or `Memory`.
pub fn begin_partial<L: Lines>(
    alloc: Global,
    asked: &PartAsked,
    dims: &Dims,
    lines: &L,
) -> Result<Vec<u8>, Fault>
    ensures ok { IfOk result (λ head. head.items ≡ head_text asked.now.head (digest_of dims.now)) }
    ensures plain { IfOk result (λ head. member_cause (record { lines = L.lines lines.now }) ≡ None) }
    ensures refused { IfErr result
        (λ fault. (fault ≡ Fault.Memory) ⊎ (member_cause (record { lines = L.lines lines.now }) ≡ Some fault)) }
{
    check_members(lines)?;
    let digest = digest_of(alloc, dims)?;
    head_text(alloc, &asked.head, &digest)
}

/// Hands a writer the text of a head, then the report of the lines of a partial answer, and flushes it. It takes no
/// memory.
pub fn write_partial<L: Lines, W: Write>(
    asked: &PartAsked,
    head: &[u8],
    lines: &L,
    out: &mut W,
) -> Result<(), Fault>
    ensures { Writes (W.contents out.old) (W.contents out.new) result
        (head.now ++ report_of asked.now.query (record { lines = L.lines lines.now })) }
{
    write_bytes(out, head)?;
    write_report(&asked.query, lines, out)
}
