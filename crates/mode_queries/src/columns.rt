//! The columns of a query by their names.
ghost use Rattle.std.specs.Prelude.{◌≡◌, ◌<◌, ◌+◌, [], Some, length, slice_index_or};
ghost use Rattle.mode_queries.specs.Names.{column_names, names_with};

use crate::query::{ModeQuery, SHIP_MODE};
use cube_model::Attr;

impl ModeQuery {
    /// How many columns there are, the ship mode counted where it is one of them.
    pub fn column_count(&self) -> usize
        ensures { result ≡ length (column_names self.now) }
    {
        let columns = self.query.columns.as_slice().len();
        match self.place {
            None => columns,
            Some(_) => columns + 1,
        }
    }

    /// The name of a column. Columns count from 0.
    pub fn column_name(&self, column: usize) -> &'static str
        requires { column < length (column_names self.now) }
        ensures { result.now ≡ slice_index_or (column_names self.now) column [] }
    {
        let columns = self.query.columns.as_slice();
        match self.place {
            None => columns[column].name(),
            Some(place) => name_among(columns, place, column),
        }
    }
}

// The name of a column, where the ship mode is one of them at a place.
fn name_among(columns: &[Attr], place: usize, column: usize) -> &'static str
    requires { column < length columns.now + 1 }
    ensures { result.now ≡ slice_index_or (names_with columns.now (Some place)) column [] }
{
    let place = place.min(columns.len());
    if column < place {
        columns[column].name()
    } else if column == place {
        SHIP_MODE
    } else {
        columns[column - 1].name()
    }
}
