//! Why a call was refused.
ghost use Rattle.std.specs.Prelude.{◌≡◌};
ghost use Rattle.cube_model.specs.FaultNumbers.{number_of};

use crate::attr::Axis;
use crate::measure::Measure;
use std::alloc::{AllocError, AllocFailed};
use std::fmt;
use thiserror::Error;

/// Where a text is: in a line of a table, or in a row of a batch. Both count from 1.
#[derive(Clone, Copy, PartialEq, Eq)]
pub enum Place {
    Line(u64),
    Row(u32),
}

impl fmt::Display for Place {
    fn fmt<W: fmt::Write>(&self, f: &mut fmt::Formatter<W>) -> fmt::Result {
        match self {
            Place::Line(line) => write!(f, "line {line}"),
            Place::Row(row) => write!(f, "row {row}"),
        }
    }
}

/// Where a member is. Batches and rows count from 1.
#[derive(Clone, Copy, PartialEq, Eq)]
pub enum MemberPlace {
    /// In a row of a dimension.
    InDimension { axis: Axis, row: u32 },
    /// In a row of the batch that was given.
    InBatch { row: u32 },
    /// In a row of a batch that is stored.
    InStoredBatch { batch: u32, row: u32 },
}

impl fmt::Display for MemberPlace {
    fn fmt<W: fmt::Write>(&self, f: &mut fmt::Formatter<W>) -> fmt::Result {
        match self {
            MemberPlace::InDimension { axis, row } => write!(f, "{axis} row {row}"),
            MemberPlace::InBatch { row } => write!(f, "row {row}"),
            MemberPlace::InStoredBatch { batch, row } => write!(f, "batch {batch} row {row}"),
        }
    }
}

/// Why a call was refused, and where. It prints as `fault N NAME PLACE`, where N is its code.
///
/// Lines, fields and rows count from 1. Field 0 means a whole line.
#[derive(Clone, Copy, PartialEq, Eq, Drop, Error)]
pub enum Fault {
    /// A growth of memory was refused.
    #[error("fault 1 Memory")]
    Memory,
    /// The device failed in this call.
    #[error("fault 2 Device")]
    Device,
    /// The session met `Device` before.
    #[error("fault 3 Failed")]
    Failed,
    /// No free run of sectors is long enough.
    #[error("fault 4 Full")]
    Full,
    /// The device has no valid superblock.
    #[error("fault 5 NotFormatted")]
    NotFormatted,
    /// The device has a valid superblock already.
    #[error("fault 6 AlreadyFormatted")]
    AlreadyFormatted,
    /// The bytes are not of the layout.
    #[error("fault 7 BadLayout")]
    BadLayout,
    /// The number of sectors is out of range, or not that of the superblock.
    #[error("fault 8 DeviceSize")]
    DeviceSize,
    /// A line has too few or too many parts.
    #[error("fault 9 FieldCount line {line}")]
    FieldCount { line: u64 },
    /// A field is no number, or one that is out of range.
    #[error("fault 10 BadNumber line {line} field {field}")]
    BadNumber { line: u64, field: u8 },
    /// A field or a line is too long.
    #[error("fault 11 FieldTooLong {place} field {field}")]
    FieldTooLong { place: Place, field: u8 },
    /// The key of a dimension row was seen before.
    #[error("fault 12 DuplicateKey {axis} row {row}")]
    DuplicateKey { axis: Axis, row: u32 },
    /// A member has two upper members.
    #[error("fault 13 HierarchyBroken {axis} row {row}")]
    HierarchyBroken { axis: Axis, row: u32 },
    /// A member is the text `ALL`, which means every member.
    #[error("fault 14 ReservedMember {place}")]
    ReservedMember { place: MemberPlace },
    /// No customer has the key.
    #[error("fault 15 UnknownCustomer row {row}")]
    UnknownCustomer { row: u32 },
    /// No supplier has the key.
    #[error("fault 16 UnknownSupplier row {row}")]
    UnknownSupplier { row: u32 },
    /// No part has the key.
    #[error("fault 17 UnknownPart row {row}")]
    UnknownPart { row: u32 },
    /// No day has the key.
    #[error("fault 18 UnknownDate row {row}")]
    UnknownDate { row: u32 },
    /// The sum of the absolute values of a measure passes its limit.
    #[error("fault 19 SumRange {measure}")]
    SumRange { measure: Measure },
    /// A batch or a dimension has too many rows.
    #[error("fault 20 TooManyRows")]
    TooManyRows,
    /// The warehouse has as many batches as it can hold.
    #[error("fault 21 TooManyBatches")]
    TooManyBatches,
    /// A batch with the number is there already.
    #[error("fault 22 Repeated")]
    Repeated,
    /// The number leaves out batches that are not there yet.
    #[error("fault 23 Gap")]
    Gap,
    /// The query is not proper, or its words cannot be read.
    #[error("fault 24 BadQuery")]
    BadQuery,
    /// There are fewer batches than the query asks for.
    #[error("fault 25 NoSuchPrefix")]
    NoSuchPrefix,
    /// A cuboid would have too many cells.
    #[error("fault 26 TooManyCells view {view}")]
    TooManyCells { view: u16 },
    /// A level of a dimension, or the axis of ship modes, has too many members.
    #[error("fault 27 TooManyMembers {place}")]
    TooManyMembers { place: MemberPlace },
    /// The last generation is reached.
    #[error("fault 28 Worn")]
    Worn,
    /// A reader failed.
    #[error("fault 29 Input")]
    Input,
    /// A writer failed, or took no byte.
    #[error("fault 30 Output")]
    Output,
    /// No query runs in the slot.
    #[error("fault 31 NotRunning")]
    NotRunning,
    /// Rows were added to the dimensions as often as the warehouse can count.
    #[error("fault 32 TooManyAdditions")]
    TooManyAdditions,
}

// What a fault prints, since one derived for so many variants would be among the longest proofs here.
impl fmt::Debug for Fault {
    fn fmt<W: fmt::Write>(&self, f: &mut fmt::Formatter<W>) -> fmt::Result {
        fmt::Display::fmt(self, f)
    }
}

// So that `?` answers `Memory` where a growth was refused.
impl From<AllocError> for Fault {
    ghost use Rattle.cube_model.specs.declared.fault.Fault.TheVariants.{Memory};

    ghost from_gives = { λ _ fault. fault ≡ Memory };

    fn from(_refused: AllocError) -> Fault {
        Fault::Memory
    }
}

impl<T: Drop> From<AllocFailed<T>> for Fault {
    ghost use Rattle.cube_model.specs.declared.fault.Fault.TheVariants.{Memory};

    ghost from_gives = { λ _ fault. fault ≡ Memory };

    fn from(_refused: AllocFailed<T>) -> Fault {
        Fault::Memory
    }
}

impl Fault {
    /// The number of the fault, from 1 to 32.
    pub fn code(&self) -> u8
        ensures { result ≡ number_of self.now }
    {
        match self {
            Fault::Memory => 1,
            Fault::Device => 2,
            Fault::Failed => 3,
            Fault::Full => 4,
            Fault::NotFormatted => 5,
            Fault::AlreadyFormatted => 6,
            Fault::BadLayout => 7,
            Fault::DeviceSize => 8,
            Fault::FieldCount { .. } => 9,
            Fault::BadNumber { .. } => 10,
            Fault::FieldTooLong { .. } => 11,
            Fault::DuplicateKey { .. } => 12,
            Fault::HierarchyBroken { .. } => 13,
            Fault::ReservedMember { .. } => 14,
            Fault::UnknownCustomer { .. } => 15,
            Fault::UnknownSupplier { .. } => 16,
            Fault::UnknownPart { .. } => 17,
            Fault::UnknownDate { .. } => 18,
            Fault::SumRange { .. } => 19,
            Fault::TooManyRows => 20,
            Fault::TooManyBatches => 21,
            Fault::Repeated => 22,
            Fault::Gap => 23,
            Fault::BadQuery => 24,
            Fault::NoSuchPrefix => 25,
            Fault::TooManyCells { .. } => 26,
            Fault::TooManyMembers { .. } => 27,
            Fault::Worn => 28,
            Fault::Input => 29,
            Fault::Output => 30,
            Fault::NotRunning => 31,
            Fault::TooManyAdditions => 32,
        }
    }
}
