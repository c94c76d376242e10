//! Dimension rows that can be added.
ghost use Rattle.std.specs.Prelude.{◌≡◌, Some, None, IfSome, IfNone};
ghost use Rattle.cube_model.specs.Validity.{HaveShortTexts};

use cube_model::DimRows;
use dimensions::have_short_texts;
use std::marker::Model;

/// Rows for the four dimensions, whose texts have at most 255 bytes.
#[derive(Drop)]
pub struct NewRows {
    rows: DimRows,
}

impl Model for NewRows {
    ghost use Rattle.cube_model.specs.declared.rows.DimRows as dim_rows;
    ghost use Rattle.cube_model.specs.Validity.{HaveShortTexts};

    ghost Value = { dim_rows.DimRows };

    ghost view = { λ new. new.rows };

    ghost invariant = { λ new. HaveShortTexts new.rows };
}

impl NewRows {
    /// These rows. Nothing where a text has more than 255 bytes.
    pub fn new(rows: DimRows) -> Option<NewRows>
        ensures some { IfSome result (λ new. new ≡ rows) }
        ensures none { IfNone result (HaveShortTexts rows → ⊥) }
    {
        if have_short_texts(&rows) {
            Some(NewRows { rows })
        } else {
            None
        }
    }

    /// The rows.
    pub fn rows(&self) -> &DimRows
        ensures value { result.now ≡ self.now }
        ensures short { HaveShortTexts self.now }
    {
        &self.rows
    }
}
