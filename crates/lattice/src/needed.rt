//! Which view a query needs.
ghost use Rattle.std.specs.Prelude.{◌≡◌, ◌↔◌, IfSome, IfNone, min};
ghost use Rattle.std.specs.List.{AllByRecursion};
ghost use Rattle.lattice.specs.Determined.{Determines, Decides};
ghost use Rattle.lattice.specs.Levels.{height};
ghost use Rattle.lattice.specs.Needed.{HasNoView, IsNeededBy};
ghost use Rattle.lattice.specs.Views.{Answers};

use crate::level::Level;
use crate::query::highest_level;
use crate::view::View;
use cube_model::{Attr, Axis, Cond, Query};

/// The view that groups by nothing.
const COARSEST: View = View {
    customer: Level::All,
    supplier: Level::All,
    part: Level::All,
    date: Level::All,
    ship_mode: false,
};

// The lower of two levels.
fn lower(level: Level, other: Level) -> Level
    ensures { height result ≡ min (height level) (height other) }
{
    if level.is_at_most(other) {
        level
    } else {
        other
    }
}

// The coarsest view that answers a view and determines an attribute.
fn with_attribute(view: View, attr: Attr) -> View
    ensures { (other : View) → Answers other result ↔ (Answers other view × Determines other attr) }
{
    let highest = highest_level(attr);
    match attr.axis() {
        Axis::Customer => View {
            customer: lower(view.customer, highest),
            ..view
        },
        Axis::Supplier => View {
            supplier: lower(view.supplier, highest),
            ..view
        },
        Axis::Part => View {
            part: lower(view.part, highest),
            ..view
        },
        Axis::Date => View {
            date: lower(view.date, highest),
            ..view
        },
    }
}

// The coarsest view that answers a view and determines some attributes.
fn with_columns(view: View, columns: &[Attr]) -> View
    ensures { (other : View) → Answers other result
        ↔ (Answers other view × AllByRecursion (Determines other) columns.now) }
{
    match columns {
        [] => view,
        [column, rest @ ..] => with_columns(with_attribute(view, *column), rest),
    }
}

// The coarsest view that answers a view and can say where a condition holds. None can for quantity and discount.
fn with_condition(view: View, condition: &Cond) -> Option<View>
    ensures some { IfSome result (λ found. (other : View) → Answers other found
        ↔ (Answers other view × Decides other condition.now)) }
    ensures none { IfNone result ((other : View) → Decides other condition.now → ⊥) }
{
    match condition {
        Cond::OneOf(attr, _) => Some(with_attribute(view, *attr)),
        Cond::Between(attr, _, _) => Some(with_attribute(view, *attr)),
        Cond::Quantity(_, _) => None,
        Cond::Discount(_, _) => None,
    }
}

// The coarsest view that answers a view and can say where some conditions hold.
fn with_conditions(view: View, conditions: &[Cond]) -> Option<View>
    ensures some { IfSome result (λ found. (other : View) → Answers other found
        ↔ (Answers other view × AllByRecursion (Decides other) conditions.now)) }
    ensures none { IfNone result ((other : View) → AllByRecursion (Decides other) conditions.now → ⊥) }
{
    match conditions {
        [] => Some(view),
        [condition, rest @ ..] => match with_condition(view, condition) {
            Some(view) => with_conditions(view, rest),
            None => None,
        },
    }
}

impl View {
    /// The coarsest view that serves a query, if any view does: the views that serve the query are those that answer
    /// this one. None serves a query with a condition on quantity or discount.
    pub fn needed_by(query: &Query) -> Option<View>
        ensures needed { IfSome result (IsNeededBy query.now) }
        ensures none { IfNone result (HasNoView query.now) }
    {
        let view = with_columns(COARSEST, query.columns.as_slice());
        with_conditions(view, query.conditions.as_slice())
    }
}
