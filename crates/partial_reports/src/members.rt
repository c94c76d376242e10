//! Members that can be read back from a report.
ghost use Rattle.std.specs.Prelude.{◌≡◌, ◌<◌, None, Some, length, not, slice_index_or, IfErr, OnOk};
ghost use Rattle.std.specs.List.{list_all};
ghost use Rattle.cube_model.specs.declared.answer.Member.TheVariants.{All};
ghost use Rattle.group_tallies.specs.GroupLines.{line_at};
ghost use Rattle.partial_reports.specs.Members.{are_plain_lines, ends_field, is_plain_line, is_plain_member};
ghost use Rattle.partial_reports.specs.Members.{is_plain_text, member_cause};

use cube_model::Fault;
use ssb_reports::Lines;

/// Checks that each member of the lines can be read back: `BadLayout` where one has a bar or a line feed, or is the
/// text ALL.
pub(crate) fn check_members<L: Lines>(lines: &L) -> Result<(), Fault>
    ensures ok { OnOk result (member_cause (record { lines = L.lines lines.now }) ≡ None) }
    ensures refused { IfErr result (λ fault. member_cause (record { lines = L.lines lines.now }) ≡ Some fault) }
{
    if !are_plain(lines) {
        return Err(Fault::BadLayout);
    }
    Ok(())
}

fn are_plain<L: Lines>(lines: &L) -> bool
    ensures { result ≡ are_plain_lines (L.lines lines.now) }
{
    for place in 0..lines.count() {
        if !is_plain_line(lines, place) {
            return false;
        }
    }
    true
}

fn is_plain_line<L: Lines>(lines: &L, place: usize) -> bool
    requires { place < length (L.lines lines.now) }
    ensures { result ≡ is_plain_line (line_at (L.lines lines.now) place) }
{
    for column in 0..lines.columns(place) {
        if !is_plain_at(lines, place, column) {
            return false;
        }
    }
    true
}

fn is_plain_at<L: Lines>(lines: &L, place: usize, column: usize) -> bool
    requires line { place < length (L.lines lines.now) }
    requires column { column < length (line_at (L.lines lines.now) place).key }
    ensures { result ≡ is_plain_member (slice_index_or (line_at (L.lines lines.now) place).key column All) }
{
    match lines.text(place, column) {
        Some(text) => is_plain_text(text),
        None => true,
    }
}

// A text has neither a bar nor a line feed, and is not the word for all members.
pub(crate) fn is_plain_text(text: &[u8]) -> bool
    ensures { result ≡ is_plain_text text.now }
{
    ends_no_field(text) && text != b"ALL".as_slice()
}

fn ends_no_field(text: &[u8]) -> bool
    ensures { result ≡ list_all (λ byte. not (ends_field byte)) text.now }
{
    text.iter().all(|byte| !(*byte == b'|' || *byte == b'\n'))
}
