//! What the header of a run says.
ghost use Rattle.std.specs.Prelude.{◌≡◌, ℕ, List, ◌++◌, Some, length, min, take, IfNone, IfSome};
ghost use Rattle.cuboid_cells.specs.Cells.{PlainCells};
ghost use Rattle.cuboid_cells.specs.Pieces.{IsHeadFor, bytes_of_head, most_ahead};
ghost use Rattle.cuboid_cells.specs.Spelled.{IsRun};
ghost use Rattle.cuboid_cells.specs.declared.span.Span.{Span};

use crate::reading::read_header;
use crate::span::Span;
use lattice::View;
use wire::Cursor;

/// What the header of a run says: its view, its batches, and how many cells it has.
#[derive(Clone, Copy, PartialEq, Eq)]
pub struct RunHead {
    pub view: View,
    pub span: Span,
    pub count: usize,
}

// The header at the front of the first bytes of a text that has so many bytes. Nothing where the text is no run.
pub(crate) fn head_of(bytes: &[u8], total: usize) -> Option<RunHead>
    requires { length bytes.now ≡ min most_ahead total }
    ensures some { IfSome result
        (λ head. IsHeadFor total head × ((left : List ℕ) × (bytes.now ≡ bytes_of_head head ++ left))) }
    ensures none { IfNone result ((text : List ℕ) → length text ≡ total → bytes.now ≡ take (length bytes.now) text
        → (span : Span) (plain : PlainCells) → IsRun text span plain → ⊥) }
{
    let mut cursor = Cursor::new(bytes);
    let Ok(header) = read_header(&mut cursor) else {
        return None;
    };
    match header.view(total) {
        Some(view) => Some(RunHead {
            view,
            span: Span {
                from: header.from,
                to: header.to,
            },
            count: header.cells as usize,
        }),
        None => None,
    }
}
