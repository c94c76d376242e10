//! The parts of a cube query in the order of their words, and the query of them.
ghost use Rattle.std.specs.Prelude.{◌≡◌, IfOk};
ghost use Rattle.std.specs.List.{flat_map, position};
ghost use Rattle.query_words.specs.Parts.{attribute_in, dimensions_in, is_ship_mode, mode_conditions_in};
ghost use Rattle.query_words.specs.Parts.{query_of_parts};
ghost use Rattle.query_words.specs.Spelled.{between, one_of};

use crate::known::Column;
use cube_model::{Agg, Attr, Cond, Items, Kind, Query, Text};
use mode_queries::{ModeCond, ModeQuery};
use std::alloc::{AllocError, Global};

/// A condition, by what it is on.
#[derive(PartialEq, Eq, Drop)]
pub enum Condition {
    /// An attribute, the quantity or the discount.
    Dimension(Cond),
    /// The ship mode.
    Modes(ModeCond),
}

impl Condition {
    /// That what can be a column is one of some texts.
    pub fn one_of(column: Column, texts: Items<Text>) -> Condition
        ensures { result ≡ one_of column texts }
    {
        match column {
            Column::Attribute(attr) => Condition::Dimension(Cond::OneOf(attr, texts)),
            Column::ShipMode => Condition::Modes(ModeCond::OneOf(texts)),
        }
    }

    /// That what can be a column lies between two texts.
    pub fn between(column: Column, low: Text, high: Text) -> Condition
        ensures { result ≡ between column low high }
    {
        match column {
            Column::Attribute(attr) => Condition::Dimension(Cond::Between(attr, low, high)),
            Column::ShipMode => Condition::Modes(ModeCond::Between(low, high)),
        }
    }
}

/// The parts of a cube query. Each column and each condition is one of a word, in the order of the words.
#[derive(PartialEq, Eq, Drop)]
pub struct CubeParts {
    pub kind: Kind,
    pub columns: Items<Column>,
    pub conditions: Items<Condition>,
    pub aggregates: Items<Agg>,
}

impl CubeParts {
    /// The query of the parts: the ship mode apart from its other columns and conditions. It can only fail when out of
    /// memory.
    pub fn into_query(self, alloc: Global) -> Result<ModeQuery, AllocError>
        ensures { IfOk result (λ asked. asked ≡ query_of_parts self) }
    {
        let CubeParts {
            kind,
            columns,
            conditions,
            aggregates,
        } = self;
        let place = ship_mode_place(columns.as_slice());
        let columns = attributes(alloc, columns.as_slice())?;
        let (conditions, modes) = divided(alloc, conditions)?;
        let query = Query {
            kind,
            columns,
            conditions,
            aggregates,
            order: None,
        };
        Ok(ModeQuery {
            query,
            place,
            conditions: modes,
        })
    }
}

// The place of the ship mode among columns, if it is one of them.
fn ship_mode_place(columns: &[Column]) -> Option<usize>
    ensures { result ≡ position is_ship_mode columns.now }
{
    columns.iter().position(|column| match column {
        Column::Attribute(_) => false,
        Column::ShipMode => true,
    })
}

// The columns that are attributes.
fn attributes(alloc: Global, columns: &[Column]) -> Result<Items<Attr>, AllocError>
    ensures { IfOk result (λ attributes. attributes ≡ flat_map attribute_in columns.now) }
{
    let mut attributes = Items::new(alloc);
    for column in columns {
        if let Column::Attribute(attr) = column {
            attributes.push(*attr)?;
        }
    }
    Ok(attributes)
}

// The conditions on dimensions, the quantity and the discount, and those on the ship mode.
fn divided(
    alloc: Global,
    conditions: Items<Condition>,
) -> Result<(Items<Cond>, Items<ModeCond>), AllocError>
    ensures dimensions { IfOk result (λ divided. divided.0 ≡ flat_map dimensions_in conditions) }
    ensures modes { IfOk result (λ divided. divided.1 ≡ flat_map mode_conditions_in conditions) }
{
    let mut dimensions = Items::new(alloc);
    let mut modes = Items::new(alloc);
    for condition in conditions.into_vec() {
        match condition {
            Condition::Dimension(condition) => dimensions.push(condition)?,
            Condition::Modes(condition) => modes.push(condition)?,
        }
    }
    Ok((dimensions, modes))
}
