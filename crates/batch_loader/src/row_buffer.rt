//! Rows in the memory of rows that are no longer needed.
ghost use Rattle.std.specs.Prelude.{◌≡◌, ◌<◌, ◌≤◌, ◌+◌, ◌++◌, ◌∷◌, [], length, take, OnOk, OnErr, IsOkUnless};

use cube_model::{Fault, Items};
use std::marker::Model;

/// Rows that are put over others, which are no longer needed, and after them. Contracts see the rows that were put.
#[derive(Drop)]
pub struct RowBuffer<T> {
    rows: Vec<T>,
    count: usize,
}

impl<T> Model for RowBuffer<T> {
    ghost use Rattle.std.specs.Prelude.{List, take, length, ◌≤◌};

    ghost Value = { List T };

    ghost view = { λ buffer. take buffer.count buffer.rows.items };

    ghost invariant = { λ buffer. buffer.count ≤ length buffer.rows.items };
}

impl<T> RowBuffer<T> {
    /// No row yet, over rows that are no longer needed.
    pub fn over(done: Items<T>) -> Self
        ensures { result ≡ [] }
    {
        RowBuffer {
            rows: done.into_vec(),
            count: 0,
        }
    }

    /// Puts a row after the others. It can only fail when out of memory.
    pub fn push(&mut self, row: T) -> Result<(), Fault>
    where
        T: Drop,
        ensures ok { OnOk result (self.new ≡ self.old ++ row ∷ []) }
        ensures memory { IsOkUnless result Fault.Memory }
    {
        put(&mut self.rows, self.count, row)?;
        self.count += 1;
        Ok(())
    }

    /// The rows.
    pub fn into_rows(self) -> Items<T>
    where
        T: Drop,
        ensures { result ≡ self }
    {
        let RowBuffer { mut rows, count } = self;
        rows.truncate(count);
        Items::from_vec(rows)
    }
}

// Puts a row at a place, over the one there or after the last.
#[tactic(auto, using(crate::proofs::RowBufferLemmas::put_over, crate::proofs::RowBufferLemmas::put_after))]
fn put<T: Drop>(rows: &mut Vec<T>, place: usize, row: T) -> Result<(), Fault>
    requires { place ≤ length rows.old.items }
    ensures ok { OnOk result (take (place + 1) rows.new.items ≡ take place rows.old.items ++ row ∷ []) }
    ensures room { OnOk result (place < length rows.new.items) }
    ensures same { OnErr result (rows.new.items ≡ rows.old.items) }
    ensures memory { IsOkUnless result Fault.Memory }
{
    if place < rows.len() {
        rows[place] = row;
        return Ok(());
    }
    rows.push(row)?;
    Ok(())
}
