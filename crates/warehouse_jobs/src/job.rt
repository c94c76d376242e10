//! What may be asked of a warehouse.
ghost use Rattle.std.specs.Prelude.{◌≡◌, ◌<◌, ◌≤◌, ◌⊎◌, IfSome, IsNone, ◌↔◌};
ghost use Rattle.cube_model.specs.Limits.{most_batch_rows};

use cube_model::Query;
use cube_model::limits::MOST_BATCH_ROWS;
use lattice::View;
use std::marker::Model;

/// The number of a batch. Batches are numbered from 1.
#[derive(Clone, Copy, PartialEq, Eq)]
pub struct BatchNumber {
    number: u32,
}

impl Model for BatchNumber {
    ghost use Rattle.std.specs.Prelude.{ℕ, ◌≤◌};

    ghost Value = { ℕ };

    ghost view = { λ number. number.number };

    ghost invariant = { λ number. 1 ≤ number.number };

    ghost inverse = { λ n. record { number = n } };
}

impl BatchNumber {
    /// The number, unless it is 0.
    pub fn new(number: u32) -> Option<Self>
        ensures some { IfSome result (λ found. found ≡ number) }
        ensures none { IsNone result ↔ (number ≡ 0) }
    {
        if number == 0 {
            return None;
        }
        Some(BatchNumber { number })
    }

    /// The number, 1 or more.
    pub fn get(self) -> u32
        ensures value { result ≡ self }
        ensures positive { 1 ≤ result }
    {
        self.number
    }
}

/// How many lines of a file make a batch: 1 to 65,536. The last batch may have fewer.
#[derive(Clone, Copy, PartialEq, Eq)]
pub struct BatchRows {
    rows: usize,
}

impl Model for BatchRows {
    ghost use Rattle.std.specs.Prelude.{ℕ, ◌≤◌};
    ghost use Rattle.cube_model.specs.Limits.{most_batch_rows};

    ghost Value = { ℕ };

    ghost view = { λ rows. rows.rows };

    ghost invariant = { λ rows. (1 ≤ rows.rows) × (rows.rows ≤ most_batch_rows) };

    ghost inverse = { λ n. record { rows = n } };
}

impl BatchRows {
    /// So many rows, unless there are none or more than 65,536.
    pub fn new(rows: usize) -> Option<Self>
        ensures some { IfSome result (λ found. found ≡ rows) }
        ensures none { IsNone result ↔ ((rows ≡ 0) ⊎ (most_batch_rows < rows)) }
    {
        if rows == 0 || rows > MOST_BATCH_ROWS {
            return None;
        }
        Some(BatchRows { rows })
    }

    /// How many, 1 to 65,536.
    pub fn get(self) -> usize
        ensures value { result ≡ self }
        ensures positive { 1 ≤ result }
        ensures few { result ≤ most_batch_rows }
    {
        self.rows
    }
}

/// What is asked of a warehouse.
#[derive(Drop)]
pub enum Job {
    /// Adds the fact rows of a file, so many rows a batch, its first batch with a number. A batch that is there already
    /// is passed over, and one that is another than the batch of its number is refused.
    Load { first: BatchNumber, rows: BatchRows },
    /// Reports the answer to a query over the first batches, so many of them, or all that are there.
    Report { as_of: Option<u32>, query: Query },
    /// Tells how many batches and rows there are, to how many batches stored cuboids are to come, and how many commits
    /// made what the device holds.
    Status,
    /// Stores the cuboids of the greedy list of so many views.
    Choose(u8),
    /// Stores those of the greedy list of so many views where only some views are asked for, each as often as it is
    /// among them.
    ChooseFor { k: u8, demanded: Vec<View> },
    /// Brings each stored cuboid to all batches.
    Upkeep,
    /// Says whether each stored cuboid is the grouping of the batches up to its mark.
    Audit,
    /// Moves the warehouse to the second layout.
    Migrate,
}
