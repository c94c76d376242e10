//! The answer to a query with a column of ship modes, made of the answers of folds of the query without it.
ghost use Rattle.std.specs.Prelude.{◌≡◌, ◌++◌, Err, List, Some, not, IfErr, IfOk, OnOk, IsOkUnless};
ghost use Rattle.std.specs.List.{AllByRecursion, insert, list_all};
ghost use Rattle.std.specs.BTreeMap.{IsOrdered};
ghost use Rattle.std.specs.Option.{option_map};
ghost use Rattle.group_tallies.specs.Limits.{AreFoldable, EndsFolding};
ghost use Rattle.cube_model.specs.declared.answer.Member.{Member};
ghost use Rattle.cube_model.specs.declared.answer.Value.{Value};
ghost use Rattle.cube_model.specs.declared.query.Query.{Query};
ghost use Rattle.cube_model.specs.declared.rows.LineOrder.{LineOrder};
ghost use Rattle.cube_model.specs.Keys.{key_cmp};
ghost use Rattle.cube_query.specs.Groups.{IsOver};
ghost use Rattle.mode_folds.specs.Joining.{FoldParts, HasValues, lines_of_entries};
ghost use Rattle.mode_folds.specs.Parts.{HaveQuery};
ghost use Rattle.mode_folds.specs.States.{IsFoldableByModes, RepresentsModeRows, fold_of};
ghost use Rattle.mode_queries.specs.Answers.{moded_answer};
ghost use Rattle.mode_queries.specs.Joining.{HaveValues, has_coarser, is_kept, is_text, joined_keys, joined_lines};
ghost use Rattle.mode_queries.specs.Joining.{keys_by_mode, lines_of_mode, member_of};
ghost use Rattle.mode_queries.specs.Proper.{IsProperByModes};
ghost use Rattle.mode_queries.specs.References.{asked_by};

use cube_model::{Answer, Fault, Items, Kind, Line, Member, Value};
use cube_query::Fold;
use dictionary::Dictionary;
use dimensions::Dims;
use mode_queries::QueryRef;
use std::alloc::{AllocError, Global};
use std::collections::BTreeMap;

// The lines of an answer: the values of each key, in the order of the keys.
type LinesByKey = BTreeMap<Items<Member>, Items<Value>>;

/// The answer to a query whose column at a place is the ship mode: each line of a ship mode's fold makes a line with
/// that ship mode, and each line of the fold of all rows, if there is one, a line with ALL.
pub(crate) fn joined(
    alloc: Global,
    dims: &Dims,
    asked: &QueryRef<'_>,
    place: usize,
    together: &Fold,
    modes: &Dictionary,
    folds: &[Fold],
) -> Result<Answer, Fault>
    requires proper { IsProperByModes (asked_by asked.now) }
    requires place { (asked_by asked.now).place ≡ Some place }
    requires together { IsOver dims.now together.now }
    requires each { AllByRecursion (IsOver dims.now) folds.now }
    requires query { together.now.query ≡ (asked_by asked.now).query }
    requires queries { HaveQuery (asked_by asked.now).query folds.now }
    ensures answer { IfOk result (λ found. (rows : List LineOrder)
        → RepresentsModeRows dims.now (fold_of (asked_by asked.now) together.now modes.now.texts folds.now) rows
        → found ≡ moded_answer (asked_by asked.now) dims.now rows) }
    ensures refused { result ≡ Err Fault.BadLayout
        → IsFoldableByModes dims.now (fold_of (asked_by asked.now) together.now modes.now.texts folds.now) → ⊥ }
    ensures only { IfErr result EndsFolding }
{
    let kind = asked.query().kind;
    let mut lines = BTreeMap::new(alloc);
    join_modes(alloc, dims, kind, place, modes, folds, &mut lines)?;
    if has_coarser(kind) {
        let found = together.finish(dims)?;
        join(alloc, kind, place, None, found, &mut lines)?;
    }
    let lines = listed(alloc, lines)?;
    Ok(Answer { lines })
}

/// Whether some grouping set does not group one of the columns.
pub(crate) fn has_coarser(kind: Kind) -> bool
    ensures { result ≡ has_coarser kind }
{
    match kind {
        Kind::Plain => false,
        Kind::Rollup | Kind::Cube => true,
    }
}

// Adds the lines of each ship mode.
fn join_modes(
    alloc: Global,
    dims: &Dims,
    kind: Kind,
    place: usize,
    modes: &Dictionary,
    folds: &[Fold],
    lines: &mut LinesByKey,
) -> Result<(), Fault>
    requires each { AllByRecursion (IsOver dims.now) folds.now }
    ensures ok { OnOk result ((query : Query) (rows : List LineOrder) (value : List Member → List Value)
        (keys : List (List Member)) → kind ≡ query.kind → FoldParts dims.now query rows modes.now.texts folds.now
        → AllByRecursion (λ mode. HaveValues value (lines_of_mode dims.now query place rows mode)) modes.now.texts
        → HasValues value keys lines.old
        → HasValues value (keys ++ keys_by_mode dims.now query place rows modes.now.texts) lines.new) }
    ensures refused { result ≡ Err Fault.BadLayout → (query : Query) (rows : List LineOrder)
        → FoldParts dims.now query rows modes.now.texts folds.now → AreFoldable dims.now rows → ⊥ }
    ensures only { IfErr result EndsFolding }
{
    for code in 0..modes.len() {
        let Some(mode) = modes.text(code as u32) else {
            return Err(Fault::BadLayout);
        };
        let Some(fold) = folds.get(code) else {
            return Err(Fault::BadLayout);
        };
        let found = fold.finish(dims)?;
        join(alloc, kind, place, Some(mode), found, lines)?;
    }
    Ok(())
}

// Adds the lines of an answer without the column, with what they have in it: a ship mode, or ALL.
fn join(
    alloc: Global,
    kind: Kind,
    place: usize,
    mode: Option<&[u8]>,
    found: Answer,
    lines: &mut LinesByKey,
) -> Result<(), Fault>
    ensures ok { OnOk result ((value : List Member → List Value) (keys : List (List Member))
        → HaveValues value (joined_lines kind place (option_map (λ mode. mode.now) mode.entry) found.lines)
        → HasValues value keys lines.old
        → HasValues value (keys ++ joined_keys kind place (option_map (λ mode. mode.now) mode.entry) found.lines)
        lines.new) }
    ensures only { IsOkUnless result Fault.Memory }
{
    for line in found.lines.into_vec() {
        if is_kept(kind, place, mode.is_some(), line.key.as_slice()) {
            let Line { key, values } = line;
            let key = with_member(alloc, place, mode, key)?;
            lines.insert(key, values)?;
        }
    }
    Ok(())
}

// Whether a line without the column makes one with it.
fn is_kept(kind: Kind, place: usize, is_grouped: bool, key: &[Member]) -> bool
    ensures { result ≡ is_kept kind place is_grouped key.now }
{
    match (kind, is_grouped) {
        (Kind::Plain, _) | (Kind::Cube, _) => true,
        (Kind::Rollup, true) => are_texts(key.split_at(place.min(key.len())).0),
        (Kind::Rollup, false) => have_no_text(key.split_at(place.min(key.len())).1),
    }
}

fn are_texts(members: &[Member]) -> bool
    ensures { result ≡ list_all is_text members.now }
{
    members.iter().all(|member| is_text(member))
}

fn have_no_text(members: &[Member]) -> bool
    ensures { result ≡ list_all (λ member. not (is_text member)) members.now }
{
    members.iter().all(|member| !is_text(member))
}

fn is_text(member: &Member) -> bool
    ensures { result ≡ is_text member.now }
{
    matches!(member, Member::Text(_))
}

// A key with what it has in the column.
fn with_member(
    alloc: Global,
    place: usize,
    mode: Option<&[u8]>,
    key: Items<Member>,
) -> Result<Items<Member>, AllocError>
    ensures { IfOk result
        (λ with. with ≡ insert key place (member_of (option_map (λ mode. mode.now) mode.entry))) }
{
    let member = match mode {
        Some(mode) => Member::Text(Items::from_vec(Vec::from_slice(alloc, mode)?)),
        None => Member::All,
    };
    let mut key = key.into_vec();
    let place = place.min(key.len());
    key.insert(place, member)?;
    Ok(Items::from_vec(key))
}

// The lines in the order of their keys.
fn listed(alloc: Global, lines: LinesByKey) -> Result<Items<Line>, AllocError>
    ensures lines { IfOk result (λ listed. listed ≡ lines_of_entries lines.entries) }
    ensures ordered { IsOrdered key_cmp lines }
{
    let mut listed = Vec::with_capacity(alloc, lines.len())?;
    for (key, values) in lines {
        listed.push(Line { key, values })?;
    }
    Ok(Items::from_vec(listed))
}
