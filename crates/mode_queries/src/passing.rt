//! The conditions of a query on ship modes.
ghost use Rattle.std.specs.Prelude.{◌≡◌};
ghost use Rattle.std.specs.List.{list_any};
ghost use Rattle.std.specs.Str.{bytes_eq};
ghost use Rattle.cube_model.specs.Selection.{text_le};
ghost use Rattle.mode_queries.specs.Selection.{holds_of_mode, passes_modes};

use crate::query::ModeCond;
use cube_model::Text;

/// Whether all conditions on ship modes hold of one.
pub fn passes(conditions: &[ModeCond], mode: &[u8]) -> bool
    ensures { result ≡ passes_modes conditions.now mode.now }
{
    conditions.iter().all(|condition| holds_of(condition, mode))
}

// Whether a condition holds of a ship mode.
fn holds_of(condition: &ModeCond, mode: &[u8]) -> bool
    ensures { result ≡ holds_of_mode mode.now condition.now }
{
    match condition {
        ModeCond::OneOf(texts) => is_one_of(mode, texts.as_slice()),
        ModeCond::Between(low, high) => {
            is_at_most(low.as_slice(), mode) && is_at_most(mode, high.as_slice())
        }
    }
}

fn is_one_of(text: &[u8], texts: &[Text]) -> bool
    ensures { result ≡ list_any (λ other. bytes_eq other text.now) texts.now }
{
    texts.iter().any(|other| other.as_slice() == text)
}

fn is_at_most(left: &[u8], right: &[u8]) -> bool
    ensures { result ≡ text_le left.now right.now }
{
    left.cmp(&right).is_le()
}
