//! What the rows of a batch are refused for.
ghost use Rattle.std.specs.Prelude.{◌≡◌, ◌+◌, ◌<◌, ◌≤◌, [], ◌∷◌, None, List, ◌++◌, is_some, length, IfOk};
ghost use Rattle.std.specs.Result.{result_err};
ghost use Rattle.cube_model.specs.declared.rows.DimRows.{DimRows};
ghost use Rattle.cube_model.specs.declared.rows.LineOrder.{LineOrder};
ghost use Rattle.cube_model.specs.Causes.{first_cause};
ghost use Rattle.cube_model.specs.Limits.{most_batch_rows};
ghost use Rattle.batch_admission.specs.Found.{cause_of, found_in, found_with};
ghost use Rattle.batch_admission.specs.Totals.{AreBelow, sum_limit};
ghost use Rattle.cube_model.specs.declared.totals.Totals.{Totals};

use crate::rows::{long_field, unknown_axis};
use crate::sums::Sums;
use cube_model::{Fault, LineOrder, Totals};
use dimensions::Dims;
use std::marker::Model;

/// What was found in the first rows of a batch: how many they are, the first text that is too long, the first unknown
/// key, and the sums of these rows and of all that were accepted before. A batch may be handed over in pieces.
#[derive(Clone, Copy)]
pub struct Findings {
    row_count: u32,
    long_text: Option<Fault>,
    unknown_key: Option<Fault>,
    sums: Sums,
}

impl Model for Findings {
    ghost use Rattle.std.specs.Prelude.{◌≤◌, ◌+◌, ◌*◌, ◌^◌};
    ghost use Rattle.cube_model.specs.Limits.{most_batch_rows};
    ghost use Rattle.batch_admission.specs.Found.{Found};
    ghost use Rattle.batch_admission.specs.Totals.{AreBelow, sum_limit};

    ghost Value = { Found };

    ghost view = { λ found. record {
      row_count = found.row_count;
      long_text = found.long_text;
      unknown_key = found.unknown_key;
      totals = found.sums;
    } };

    ghost invariant = { λ found. (found.row_count ≤ most_batch_rows)
        × AreBelow (sum_limit + found.row_count * 2 ^ 71) found.sums };

    ghost inverse = { λ found. record {
      row_count = found.row_count;
      long_text = found.long_text;
      unknown_key = found.unknown_key;
      sums = found.totals;
    } };
}

impl Findings {
    /// Nothing yet, after accepted batches with some totals.
    pub fn none(totals: Totals) -> Findings
        requires { AreBelow sum_limit totals }
        ensures found { (dimensions : DimRows) → result ≡ found_in dimensions totals [] }
        ensures clean { cause_of result ≡ None }
    {
        Findings {
            row_count: 0,
            long_text: None,
            unknown_key: None,
            sums: Sums::of(totals),
        }
    }

    /// The number of rows that were looked at.
    pub fn row_count(&self) -> u32
        ensures count { result ≡ self.now.row_count }
        ensures few { result ≤ most_batch_rows }
    {
        self.row_count
    }

    /// Whether a text of the rows is too long. That of a further row does not change a yes.
    pub fn has_long_text(&self) -> bool
        ensures long { result ≡ is_some self.now.long_text }
        ensures few { self.now.row_count ≤ most_batch_rows }
    {
        self.long_text.is_some()
    }

    /// What is found with the next rows of the batch. Each is looked at once.
    pub fn more(self, dims: &Dims, rows: &[LineOrder]) -> Findings
        requires few { self.row_count + length rows.now ≤ most_batch_rows }
        ensures { (totals : Totals) (earlier : List LineOrder) → self ≡ found_in dims.now totals earlier
            → result ≡ found_in dims.now totals (earlier ++ rows.now) }
    {
        let mut found = self;
        for row in rows {
            found = found.with_row(dims, row);
        }
        found
    }

    /// The first cause to refuse a batch of these rows: a text that is too long, an unknown key, or a sum past its
    /// limit.
    pub fn cause(&self) -> Option<Fault>
        ensures { result ≡ cause_of self.now }
    {
        self.judged().err()
    }

    /// The first cause to refuse a batch of these rows, their sums apart: a text that is too long, or an unknown key.
    pub fn early_cause(&self) -> Option<Fault>
        ensures cause { result ≡ first_cause (self.now.long_text ∷ self.now.unknown_key ∷ []) }
        ensures few { self.now.row_count ≤ most_batch_rows }
    {
        self.long_text.or(self.unknown_key)
    }

    /// The totals with these rows, or the first cause to refuse a batch of them.
    pub fn judged(&self) -> Result<Totals, Fault>
        ensures cause { result_err result ≡ cause_of self.now }
        ensures value { IfOk result (λ totals. totals ≡ self.now.totals) }
        ensures below { IfOk result (AreBelow sum_limit) }
        ensures few { self.now.row_count ≤ most_batch_rows }
    {
        if let Some(fault) = self.long_text {
            return Err(fault);
        }
        if let Some(fault) = self.unknown_key {
            return Err(fault);
        }
        self.sums.totals()
    }

    // What is found with one more row.
    fn with_row(self, dims: &Dims, row: &LineOrder) -> Findings
        requires { self.row_count < most_batch_rows }
        ensures { result ≡ found_with dims.now self row.now }
    {
        let row_count = self.row_count + 1;
        Findings {
            row_count,
            long_text: match self.long_text {
                Some(fault) => Some(fault),
                None => long_field(row_count, row),
            },
            unknown_key: match self.unknown_key {
                Some(fault) => Some(fault),
                None => unknown_axis(dims, row_count, row),
            },
            sums: self.sums.plus_row(row),
        }
    }
}
