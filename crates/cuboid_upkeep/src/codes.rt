//! The codes of members.
ghost use Rattle.std.specs.Prelude.{◌≡◌, ◌↔◌, ◌<◌, ◌≤◌, ℕ, Some, IsTrue, length};
ghost use Rattle.cube_model.specs.Places.{row_count_of};
ghost use Rattle.dimensions.specs.Coded.{AreGoodRows};
ghost use Rattle.dimensions.specs.Shapes.{lowers_of};
ghost use Rattle.dimensions.specs.Shown.{rows_on};
ghost use Rattle.lattice.specs.declared.level.Level.TheVariants as level;
ghost use Rattle.lattice.specs.Levels.{level_attribute};
ghost use Rattle.cuboid_cells.specs.Limits.{all_code};
ghost use Rattle.cuboid_upkeep.specs.Codes.{level_column, member_code};

use cube_model::Axis;
use dimensions::{Dims, lower_column};
use lattice::Level;

// Where the codes of the members of a level are.
#[derive(Clone, Copy)]
pub(crate) enum LevelCodes<'a> {
    // The place of a row is its code.
    Places,
    // At the place of a row.
    Column(&'a [u16]),
    // At the code of a lower column.
    Above(&'a [u16], &'a [u16]),
    // And that at the code of one that is lower still.
    Twice(&'a [u16], &'a [u16], &'a [u16]),
}

impl<'a> LevelCodes<'a> {
    ghost use Rattle.cuboid_upkeep.specs.Tables.{AreLevelCodes, LeadToMembers, Leads, code_tables};
    ghost use Rattle.lattice.specs.declared.level.Level.{Level};

    // Those of a level of a dimension, if it has members.
    pub(crate) fn of(dims: &'a Dims, axis: Axis, grouped: Level) -> LevelCodes<'a>
        requires { AreGoodRows axis (rows_on dims.now axis) }
        ensures { AreLevelCodes dims.now axis grouped result }
    {
        match column_of_level(axis, grouped) {
            None => LevelCodes::Places,
            Some(column) => LevelCodes::of_column(dims, axis, column),
        }
    }

    // Those of a level whose members are in a column.
    fn of_column(dims: &'a Dims, axis: Axis, column: usize) -> LevelCodes<'a>
        requires good { AreGoodRows axis (rows_on dims.now axis) }
        requires column { column < length (lowers_of axis) }
        ensures { (grouped : Level) → level_column (level_attribute axis grouped) ≡ Some column
            → LeadToMembers dims.now axis grouped (code_tables result) }
    {
        let codes = dims.codes(axis, column);
        let Some(lower) = lower_column(axis, column) else {
            return LevelCodes::Column(codes);
        };
        let lowers = dims.codes(axis, lower);
        match lower_column(axis, lower) {
            None => LevelCodes::Above(lowers, codes),
            Some(lowest) => LevelCodes::Twice(dims.codes(axis, lowest), lowers, codes),
        }
    }

    // The code that they lead to from the place of a row.
    #[inline(always)]
    pub(crate) fn read(self, place: usize) -> u16
        requires { (code : ℕ) × Leads (code_tables self) place code × (code < 65536) }
        ensures { (code : ℕ) → Leads (code_tables self.entry) place code → result ≡ code }
    {
        match self {
            LevelCodes::Places => place as u16,
            LevelCodes::Column(codes) => codes[place],
            LevelCodes::Above(lowers, codes) => codes[usize::from(lowers[place])],
            LevelCodes::Twice(lowest, lowers, codes) => {
                codes[usize::from(lowers[usize::from(lowest[place])])]
            }
        }
    }
}

// Whether a level is that of every member together.
#[inline(always)]
pub(crate) fn is_all(grouped: Level) -> bool
    ensures { IsTrue result ↔ (grouped ≡ level.All) }
{
    matches!(grouped, Level::All)
}

// The column that has the members of a level. Nothing for a day, and for every member together.
fn column_of_level(axis: Axis, grouped: Level) -> Option<usize>
    ensures { result ≡ level_column (level_attribute axis grouped) }
{
    match (axis, grouped) {
        (_, Level::All) => None,
        (Axis::Date, Level::Lowest) => None,
        (Axis::Date, Level::Middle) => Some(0),
        (Axis::Date, Level::Highest) => Some(1),
        (Axis::Customer | Axis::Supplier | Axis::Part, Level::Lowest) => Some(0),
        (Axis::Customer | Axis::Supplier | Axis::Part, Level::Middle) => Some(1),
        (Axis::Customer | Axis::Supplier | Axis::Part, Level::Highest) => Some(2),
    }
}

// How many members a level has. Their codes are below it.
pub(crate) fn code_count(dims: &Dims, axis: Axis, grouped: Level) -> usize
    requires good { AreGoodRows axis (rows_on dims.now axis) }
    requires grouped { grouped ≡ level.All → ⊥ }
    ensures below { (place : ℕ) → place < row_count_of dims.now axis
        → member_code dims.now axis grouped place < result }
    ensures few { result ≤ all_code }
{
    match column_of_level(axis, grouped) {
        None => dims.row_count(axis),
        Some(column) => dims.texts(axis, column).len(),
    }
}
