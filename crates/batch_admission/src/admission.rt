//! The accepted batches, and the check of a further one.
ghost use Rattle.std.specs.Prelude.{◌≡◌, ◌+◌, ◌≤◌, [], None, List, OnOk, OnErr};
ghost use Rattle.std.specs.Result.{result_err};
ghost use Rattle.cube_model.specs.declared.rows.DimRows.{DimRows};
ghost use Rattle.cube_model.specs.declared.rows.LineOrder.{LineOrder};
ghost use Rattle.cube_model.specs.Limits.{most_batch_rows, most_batches};
ghost use Rattle.batch_admission.specs.Accepted.{Admits, CanFollow, HasAccepted, number_cause};
ghost use Rattle.batch_admission.specs.Found.{cause_of, found_in};
ghost use Rattle.batch_admission.specs.Totals.{AreBelow, sum_limit};

use crate::findings::Findings;
use cube_model::limits::{MOST_BATCH_ROWS, MOST_BATCHES};
use cube_model::{Fault, LineOrder, Totals};
use dimensions::Dims;
use std::marker::Model;

/// The number of the batches that were accepted, and the totals of their rows.
#[derive(Drop)]
pub struct Admission {
    count: u32,
    totals: Totals,
}

impl Model for Admission {
    ghost use Rattle.std.specs.Prelude.{◌≤◌};
    ghost use Rattle.cube_model.specs.Limits.{most_batches};
    ghost use Rattle.batch_admission.specs.Accepted.{Accepted};
    ghost use Rattle.batch_admission.specs.Totals.{AreBelow, sum_limit};

    ghost Value = { Accepted };

    ghost view = { λ admission. record { count = admission.count; totals = admission.totals } };

    ghost invariant = { λ admission. (admission.count ≤ most_batches) × AreBelow sum_limit admission.totals };
}

impl Admission {
    /// No batch yet.
    pub fn new() -> Admission
        ensures { HasAccepted result [] }
    {
        Admission {
            count: 0,
            totals: Totals {
                quantity: 0,
                extendedprice: 0,
                revenue: 0,
                supplycost: 0,
                discounted: 0,
                profit: 0,
            },
        }
    }

    /// The batches that were accepted when their number and totals were stored.
    pub fn resume(count: u32, totals: Totals) -> Admission
        requires count { count ≤ most_batches }
        requires totals { AreBelow sum_limit totals }
        ensures { result ≡ record { count = count; totals = totals } }
    {
        Admission { count, totals }
    }

    /// The number of the batches that were accepted.
    pub fn count(&self) -> u32
        ensures count { result ≡ self.now.count }
        ensures few { result ≤ most_batches }
    {
        self.count
    }

    /// The totals of their rows.
    pub fn totals(&self) -> Totals
        ensures totals { result ≡ self.now.totals }
        ensures below { AreBelow sum_limit result }
    {
        self.totals
    }

    /// The number of the next batch.
    pub fn next_number(&self) -> u32
        ensures next { result ≡ self.now.count + 1 }
        ensures few { self.now.count ≤ most_batches }
    {
        self.count + 1
    }

    /// Takes a batch in, or answers the first cause for which it is refused.
    pub fn admit(&mut self, dims: &Dims, number: u32, rows: &[LineOrder]) -> Result<(), Fault>
        ensures admits { (batches : List (List LineOrder)) → HasAccepted self.old batches
            → Admits dims.now self.old self.new number rows.now (result_err result) batches }
        ensures follows { OnOk result (CanFollow self.old.count number rows.now) }
    {
        self.check_number(number)?;
        if rows.len() > MOST_BATCH_ROWS {
            return Err(Fault::TooManyRows);
        }
        let found = self.findings().more(dims, rows);
        self.keep(number, &found)
    }

    /// Nothing found yet in the rows of a further batch, for one that is handed over in pieces.
    pub fn findings(&self) -> Findings
        ensures found { (dimensions : DimRows) → result ≡ found_in dimensions self.now.totals [] }
        ensures clean { cause_of result ≡ None }
        ensures few { self.now.count ≤ most_batches }
    {
        Findings::none(self.totals)
    }

    /// Takes a batch in by what was found in its rows, or answers the first cause for which it is refused.
    pub fn admit_found(&mut self, number: u32, found: &Findings) -> Result<(), Fault>
        ensures admits { (dimensions : DimRows) (batches : List (List LineOrder)) (rows : List LineOrder)
            → HasAccepted self.old batches → found.now ≡ found_in dimensions self.old.totals rows
            → Admits dimensions self.old self.new number rows (result_err result) batches }
        ensures follows { OnOk result ((dimensions : DimRows) (rows : List LineOrder)
            → found.now ≡ found_in dimensions self.old.totals rows → CanFollow self.old.count number rows) }
        ensures clean { OnOk result (cause_of found.now ≡ None) }
    {
        self.check_number(number)?;
        self.keep(number, found)
    }

    /// Refuses a number that is not the next one, and a batch after the last that there can be: `Repeated` where the
    /// number was accepted before, `Gap` where one is left out, `TooManyBatches` where there can be no further one.
    pub fn check_number(&self, number: u32) -> Result<(), Fault>
        ensures cause { result_err result ≡ number_cause self.now.count number }
        ensures next { OnOk result ((number ≡ self.now.count + 1) × (number ≤ most_batches)) }
    {
        if number <= self.count {
            return Err(Fault::Repeated);
        }
        if number > self.count + 1 {
            return Err(Fault::Gap);
        }
        if self.count >= MOST_BATCHES as u32 {
            return Err(Fault::TooManyBatches);
        }
        Ok(())
    }

    // Takes the next batch in, unless something was found in its rows.
    fn keep(&mut self, number: u32, found: &Findings) -> Result<(), Fault>
        requires { number ≤ most_batches }
        ensures cause { result_err result ≡ cause_of found.now }
        ensures ok { OnOk result (self.new ≡ record { count = number; totals = found.now.totals }) }
        ensures err { OnErr result (self.new ≡ self.old) }
        ensures few { found.now.row_count ≤ most_batch_rows }
    {
        let totals = found.judged()?;
        self.count = number;
        self.totals = totals;
        Ok(())
    }
}
