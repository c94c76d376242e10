//! The view that a word names.
ghost use Rattle.std.specs.Prelude.{◌≡◌, ◌↔◌, ◌<◌, ◌∷◌, [], ℕ, IsTrue, IfOk, MatchOption, map};
ghost use Rattle.lattice.specs.declared.view.View.{View};
ghost use Rattle.lattice.specs.Names.{mode_name};
ghost use Rattle.lattice.specs.Views.{index_of};
ghost use Rattle.query_words.specs.ViewWords.{IsNumber, NameLevels, Names, level_names, comma_parts};

use cube_model::Axis;
use lattice::View;
use std::alloc::{AllocError, Global};

/// How many views there are. They have the numbers below it.
const VIEWS: u16 = 512;

/// The view that a word names: by its number, such as `59`, or by its levels, such as `city,ALL,mfgr,ALL` or
/// `ALL,ALL,mfgr,ALL,shipmode`. It fails only when out of memory.
pub(crate) fn read_view(alloc: Global, word: &str) -> Result<Option<View>, AllocError>
    ensures { IfOk result
        (λ found. MatchOption found ((view : View) → Names word.now view → ⊥) (λ view. Names word.now view)) }
{
    match view_of_number(word) {
        Some(view) => Ok(Some(view)),
        None => view_of_levels(alloc, word),
    }
}

// The view whose number a word is.
fn view_of_number(word: &str) -> Option<View>
    ensures { MatchOption result ((view : View) → IsNumber word.now (index_of view) → ⊥)
        (λ view. IsNumber word.now (index_of view)) }
{
    match number(word) {
        Some(number) => View::new(number),
        None => None,
    }
}

// One or more digits, whose value is at most 65,535. Leading zeros are accepted, a sign is not.
fn number(word: &str) -> Option<u16>
    ensures { MatchOption result ((n : ℕ) → IsNumber word.now n → 65535 < n) (λ n. IsNumber word.now n) }
{
    if word.starts_with('+') {
        return None;
    }
    match word.parse::<u16>() {
        Ok(number) => Some(number),
        Err(_) => None,
    }
}

// The view whose levels a word names.
fn view_of_levels(alloc: Global, word: &str) -> Result<Option<View>, AllocError>
    ensures { IfOk result (λ found. MatchOption found ((view : View) → NameLevels (comma_parts word.now) view → ⊥)
        (λ view. NameLevels (comma_parts word.now) view)) }
{
    let parts = parts(alloc, word)?;
    Ok(view_of_parts(parts.as_slice()))
}

// The parts of a word between commas.
fn parts(alloc: Global, word: &str) -> Result<Vec<&str>, AllocError>
    ensures { IfOk result (λ parts. map (λ part. part.now) parts.items ≡ comma_parts word.now) }
{
    word.split(',').collect(alloc)
}

// The view of the names of its levels.
#[tactic(auto, using(lattice::proofs::LawsLemmas::indexes_name_views))]
fn view_of_parts(parts: &[&str]) -> Option<View>
    ensures { MatchOption result ((view : View) → NameLevels (map (λ part. part.now) parts.now) view → ⊥)
        (λ view. NameLevels (map (λ part. part.now) parts.now) view) }
{
    for index in 0..VIEWS {
        if let Some(view) = View::new(index) {
            if are_names(parts, view) {
                return Some(view);
            }
        }
    }
    None
}

// Whether words are the names of the levels of a view.
fn are_names(parts: &[&str], view: View) -> bool
    ensures { IsTrue result ↔ NameLevels (map (λ part. part.now) parts.now) view }
{
    match parts {
        [customer, supplier, part, date] => {
            !view.ship_mode && are_levels(view, customer, supplier, part, date)
        }
        [customer, supplier, part, date, mode] => {
            *mode == mode_name(view.ship_mode) && are_levels(view, customer, supplier, part, date)
        }
        _ => false,
    }
}

// Whether words are the names of the levels of a view on the four dimensions.
fn are_levels(view: View, customer: &str, supplier: &str, part: &str, date: &str) -> bool
    ensures { IsTrue result ↔ (customer.now ∷ supplier.now ∷ part.now ∷ date.now ∷ [] ≡ level_names view) }
{
    customer == view.customer.name(Axis::Customer)
        && supplier == view.supplier.name(Axis::Supplier)
        && part == view.part.name(Axis::Part)
        && date == view.date.name(Axis::Date)
}

/// The name for ship mode in a view: `shipmode` where it groups by it, or `ALL`.
pub(crate) fn mode_name(ship_mode: bool) -> &'static str
    ensures { result.now ≡ mode_name ship_mode }
{
    if ship_mode { "shipmode" } else { "ALL" }
}
