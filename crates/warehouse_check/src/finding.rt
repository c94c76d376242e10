//! What is wrong with the content of a store.
use cube_model::Fault;
use std::fmt;

/// The first thing that is wrong with the content of a store. Batches are numbered from 1.
#[derive(Clone, Copy, PartialEq, Eq)]
pub enum Finding {
    /// An object is missing for which the root asks, or there is one for which it does not.
    Objects,
    /// The object at the place of a batch is no segment.
    Segment { batch: u32 },
    /// The segment at the place of a batch says that it is another one.
    Number { batch: u32, number: u32 },
    /// The segment of a batch has another number of rows than the root says.
    Rows { batch: u32, rows: u32, said: u32 },
    /// A batch would not have been admitted after those before it: a key is unknown, or a sum exceeds its limit.
    Batch { batch: u32, fault: Fault },
    /// The totals that the root says are not those of the rows.
    Totals,
    /// The ship modes of a warehouse of the second layout are not those of its batches.
    ShipModes,
    /// The runs of the cuboid of a view cannot be merged, or they are not the grouping of its batches.
    Cuboid { view: u16 },
}

impl fmt::Display for Finding {
    fn fmt<W: fmt::Write>(&self, f: &mut fmt::Formatter<W>) -> fmt::Result {
        match self {
            Finding::Objects => write!(f, "objects: not those that the root names"),
            Finding::Segment { batch } => write!(
                f,
                "segment of batch {batch}: not that of a batch"
            ),
            Finding::Number { batch, number } => {
                write!(f, "segment of batch {batch}: it says batch {number}")
            }
            Finding::Rows { batch, rows, said } => {
                write!(f, "batch {batch}: rows {rows}, the root says {said}")
            }
            Finding::Batch { batch, fault } => write!(f, "batch {batch}: {fault}"),
            Finding::Totals => write!(f, "root: its totals are not those of the rows"),
            Finding::ShipModes => write!(f, "ship modes: not those of the batches"),
            Finding::Cuboid { view } => {
                write!(f, "cuboid {view}: not the grouping of its batches")
            }
        }
    }
}
