//! The groups over the text of the fact table.
ghost use Rattle.std.specs.Prelude.{◌≡◌, ◌+◌, ◌≤◌, ◌++◌, ◌∷◌, [], ℕ, List, None, IfOk, IfSome, OnOk, length};
ghost use Rattle.std.specs.Prelude.{IsOkUnless};
ghost use Rattle.std.specs.Result.{result_err};
ghost use Rattle.batch_admission.specs.Accepted.{HasAccepted};
ghost use Rattle.batch_admission.specs.Found.{cause_of, found_in};
ghost use Rattle.batch_loader.specs.Tables.{lineorder_row};
ghost use Rattle.cube_model.specs.declared.rows.DimRows.{DimRows};
ghost use Rattle.cube_model.specs.declared.rows.LineOrder.{LineOrder};
ghost use Rattle.cube_model.specs.Admission.{all_rows, moded_refusal};
ghost use Rattle.cube_model.specs.Limits.{most_batch_rows};
ghost use Rattle.cube_model.specs.ShipModes.{modes_in};
ghost use Rattle.dimension_tables.specs.Tables.{IsUnread, KeepsLine};
ghost use Rattle.dimension_tables.specs.Texts.{GivesUnlessFailed};
ghost use Rattle.mode_folds.specs.Answered.{IsAnsweredOver};
ghost use Rattle.mode_folds.specs.States.{BeginsByModes, CanTakeByModes, TakesByModes};
ghost use Rattle.ssb_eval.specs.Evaluation.{answer_in, moded_answer_of};
ghost use Rattle.ssb_eval.specs.BatchLoop.{AreTaken, CanGoOn, FoldsFacts, TookAllRows, LooksAtNext, TakesNextBatch};
ghost use Rattle.ssb_eval.specs.ShipModes.{HasMet, HasMetRows};
ghost use Rattle.ssb_eval.specs.Tables.{IsInNoRow};

use crate::ship_modes::ShipModes;
use crate::unknown::{UnknownKey, keep_unknown};
use batch_admission::{Admission, Findings};
use batch_loader::{Lines, read_batch_into};
use cube_model::limits::MOST_BATCH_ROWS;
use cube_model::{Fault, Items, LineOrder};
use dimensions::Dims;
use mode_folds::{Answered, ModeFold};
use mode_queries::ProperRef;
use std::alloc::Global;
use std::io::Read;

// The rows that are read, looked at and folded together: few enough to stay in the cache.
const PIECE_ROWS: usize = 4096;

// The pieces of a whole batch.
const BATCH_PIECES: usize = MOST_BATCH_ROWS / PIECE_ROWS;

/// Reads the fact rows batch by batch, checks each batch, and folds it: the answer to a query. Memory grows with the
/// different ship modes and the groups of the answer, and not with the rows. The key for which a batch is refused is
/// kept.
pub fn group_facts<R: Read>(
    alloc: Global,
    dims: &Dims,
    asked: ProperRef<'_>,
    lines: &mut Lines<R>,
    unknown: &mut Option<UnknownKey>,
) -> Result<Answered, Fault>
    ensures over { IfOk result (IsAnsweredOver dims.now) }
    ensures answer { (text : List ℕ) → IsUnread lines.old text
        → GivesUnlessFailed (moded_answer_of asked.entry dims.now text) (answer_in dims.now result) }
    ensures unknown { IfSome unknown.old (IsInNoRow dims.now) → IfSome unknown.new (IsInNoRow dims.now) }
    ensures line { lines.old.fault ≡ None → KeepsLine lineorder_row lines.new }
{
    if let Some(fault) = lines.fault() {
        return Err(fault);
    }
    let mut fold = ModeFold::new(alloc, dims, asked)?;
    fold_lines(alloc, dims, lines, &mut fold, unknown)?;
    fold.into_answered(dims)
}

/// Folds all batches of some lines, by a fold that begins.
fn fold_lines<R: Read>(
    alloc: Global,
    dims: &Dims,
    lines: &mut Lines<R>,
    fold: &mut ModeFold<'_>,
    unknown: &mut Option<UnknownKey>,
) -> Result<(), Fault>
    requires begins { BeginsByModes dims.now fold.old.asked fold.old }
    requires fault { lines.old.fault ≡ None }
    ensures folded { OnOk result (TookAllRows dims.now fold.old.asked fold.new) }
    ensures facts { (text : List ℕ) → IsUnread lines.old text
        → FoldsFacts fold.old.asked dims.now text fold.new result }
    ensures unknown { IfSome unknown.old (IsInNoRow dims.now) → IfSome unknown.new (IsInNoRow dims.now) }
    ensures line { KeepsLine lineorder_row lines.new }
{
    let mut admission = Admission::new();
    let mut modes = ShipModes::new(alloc);
    loop {
        let more = take_batch(
            alloc,
            dims,
            lines,
            &mut admission,
            &mut modes,
            fold,
            unknown,
        )?;
        if !more {
            return Ok(());
        }
    }
}

/// Reads the next batch, checks it, and folds it. It gives false where no row is left.
fn take_batch<R: Read>(
    alloc: Global,
    dims: &Dims,
    lines: &mut Lines<R>,
    admission: &mut Admission,
    modes: &mut ShipModes,
    fold: &mut ModeFold<'_>,
    unknown: &mut Option<UnknownKey>,
) -> Result<bool, Fault>
    requires goes_on { CanGoOn dims.now admission.old fold.old }
    requires fault { lines.old.fault ≡ None }
    ensures takes { (batches : List (List LineOrder)) → AreTaken dims.now fold.old.asked admission.old fold.old batches
        → HasMet modes.old (modes_in (all_rows batches)) []
        → TakesNextBatch dims.now fold.old.asked batches lines.old lines.new admission.new modes.new fold.new result }
    ensures unknown { IfSome unknown.old (IsInNoRow dims.now) → IfSome unknown.new (IsInNoRow dims.now) }
    ensures line { KeepsLine lineorder_row lines.new }
{
    let found = look_at_batch(alloc, dims, lines, admission, modes, fold, unknown)?;
    if found.row_count() == 0 {
        return Ok(false);
    }
    admit_next(admission, &found, modes)?;
    Ok(true)
}

/// Takes the next batch in by what was found in its rows and by their ship modes, or answers the first cause for which
/// it is refused: that of its number, an early one of its rows, one of its ship modes, and then one of the sums.
fn admit_next(admission: &mut Admission, found: &Findings, modes: &ShipModes) -> Result<(), Fault>
    ensures cause { (dimensions : DimRows) (batches : List (List LineOrder)) (rows : List LineOrder)
        → HasAccepted admission.old batches → found.now ≡ found_in dimensions admission.old.totals rows
        → HasMetRows found.now modes.now (all_rows batches) rows
        → result_err result ≡ moded_refusal dimensions batches (length batches + 1) rows }
    ensures taken { OnOk result ((dimensions : DimRows) (batches : List (List LineOrder)) (rows : List LineOrder)
        → HasAccepted admission.old batches → found.now ≡ found_in dimensions admission.old.totals rows
        → HasAccepted admission.new (batches ++ rows ∷ [])) }
{
    let number = admission.next_number();
    admission.check_number(number)?;
    if let Some(fault) = found.early_cause() {
        return Err(fault);
    }
    if let Some(fault) = modes.cause() {
        return Err(fault);
    }
    admission.admit_found(number, found)
}

/// Reads the next batch piece by piece, looks at each, and folds it unless something was found. A batch that is then
/// refused leaves a fold that is good for nothing more.
fn look_at_batch<R: Read>(
    alloc: Global,
    dims: &Dims,
    lines: &mut Lines<R>,
    admission: &Admission,
    modes: &mut ShipModes,
    fold: &mut ModeFold<'_>,
    unknown: &mut Option<UnknownKey>,
) -> Result<Findings, Fault>
    requires goes_on { CanGoOn dims.now admission.now fold.old }
    requires fault { lines.old.fault ≡ None }
    ensures looks { (batches : List (List LineOrder)) → AreTaken dims.now fold.old.asked admission.now fold.old batches
        → HasMet modes.old (modes_in (all_rows batches)) []
        → LooksAtNext dims.now fold.old.asked (all_rows batches) lines.old lines.new modes.new fold.new result }
    ensures unknown { IfSome unknown.old (IsInNoRow dims.now) → IfSome unknown.new (IsInNoRow dims.now) }
    ensures line { KeepsLine lineorder_row lines.new }
{
    let mut found = admission.findings();
    let mut rows = Items::new(alloc);
    for _ in 0..BATCH_PIECES {
        rows = read_batch_into(alloc, lines, PIECE_ROWS, rows)?;
        let before = found.row_count();
        found = found.more(dims, rows.as_slice());
        look_at_modes(alloc, before, rows.as_slice(), &found, modes)?;
        keep_unknown(
            dims,
            found.cause(),
            rows.as_slice(),
            lines.number(),
            unknown,
        );
        let count = rows.len();
        rows = fold_piece(dims, rows, &found, fold)?;
        if count < PIECE_ROWS {
            return Ok(found);
        }
    }
    Ok(found)
}

/// Looks at the ship modes of the next rows of a batch, after so many of its rows, unless an early cause was found in
/// the batch: it is then refused whatever they are.
fn look_at_modes(
    alloc: Global,
    before: u32,
    rows: &[LineOrder],
    found: &Findings,
    modes: &mut ShipModes,
) -> Result<(), Fault>
    requires few { before + length rows.now ≤ most_batch_rows }
    ensures ok { OnOk result ((others earlier : List LineOrder) → before ≡ length earlier
        → HasMetRows found.now modes.old others earlier
        → HasMetRows found.now modes.new others (earlier ++ rows.now)) }
    ensures memory { IsOkUnless result Fault.Memory }
{
    if found.early_cause().is_some() {
        return Ok(());
    }
    modes.add_rows(alloc, before, rows)
}

/// Folds the next rows of a batch, unless something was found in the batch, and gives back rows whose memory may be
/// used again.
fn fold_piece(
    dims: &Dims,
    rows: Items<LineOrder>,
    found: &Findings,
    fold: &mut ModeFold<'_>,
) -> Result<Items<LineOrder>, Fault>
    requires can { cause_of found.now ≡ None → CanTakeByModes dims.now fold.old rows }
    ensures ok { OnOk result (cause_of found.now ≡ None → TakesByModes dims.now fold.old rows fold.new) }
    ensures query { OnOk result (fold.new.asked ≡ fold.old.asked) }
    ensures only { IsOkUnless result Fault.Memory }
{
    if found.cause().is_some() {
        return Ok(rows);
    }
    let done = fold.add_rows(dims, rows.into_vec())?;
    Ok(Items::from_vec(done))
}
