//! Printed faults.
use cube_model::{Axis, Fault, Measure, MemberPlace, Place};
use std::alloc::{AllocError, Global};

/// The number and the printed text of each fault.
static FAULTS: [(u8, Fault, &str); 35] = [
    (1, Fault::Memory, "fault 1 Memory"),
    (2, Fault::Device, "fault 2 Device"),
    (3, Fault::Failed, "fault 3 Failed"),
    (4, Fault::Full, "fault 4 Full"),
    (5, Fault::NotFormatted, "fault 5 NotFormatted"),
    (6, Fault::AlreadyFormatted, "fault 6 AlreadyFormatted"),
    (7, Fault::BadLayout, "fault 7 BadLayout"),
    (8, Fault::DeviceSize, "fault 8 DeviceSize"),
    (
        9,
        Fault::FieldCount { line: 1 },
        "fault 9 FieldCount line 1",
    ),
    (
        10,
        Fault::BadNumber { line: 1, field: 9 },
        "fault 10 BadNumber line 1 field 9",
    ),
    (
        11,
        Fault::FieldTooLong {
            place: Place::Line(1),
            field: 7,
        },
        "fault 11 FieldTooLong line 1 field 7",
    ),
    (
        11,
        Fault::FieldTooLong {
            place: Place::Row(1),
            field: 7,
        },
        "fault 11 FieldTooLong row 1 field 7",
    ),
    (
        12,
        Fault::DuplicateKey {
            axis: Axis::Customer,
            row: 3,
        },
        "fault 12 DuplicateKey customer row 3",
    ),
    (
        13,
        Fault::HierarchyBroken {
            axis: Axis::Part,
            row: 3,
        },
        "fault 13 HierarchyBroken part row 3",
    ),
    (
        14,
        Fault::ReservedMember {
            place: MemberPlace::InDimension {
                axis: Axis::Date,
                row: 3,
            },
        },
        "fault 14 ReservedMember date row 3",
    ),
    (
        14,
        Fault::ReservedMember {
            place: MemberPlace::InBatch { row: 2 },
        },
        "fault 14 ReservedMember row 2",
    ),
    (
        15,
        Fault::UnknownCustomer { row: 2 },
        "fault 15 UnknownCustomer row 2",
    ),
    (
        16,
        Fault::UnknownSupplier { row: 2 },
        "fault 16 UnknownSupplier row 2",
    ),
    (
        17,
        Fault::UnknownPart { row: 2 },
        "fault 17 UnknownPart row 2",
    ),
    (
        18,
        Fault::UnknownDate { row: 2 },
        "fault 18 UnknownDate row 2",
    ),
    (
        19,
        Fault::SumRange {
            measure: Measure::Profit,
        },
        "fault 19 SumRange profit",
    ),
    (20, Fault::TooManyRows, "fault 20 TooManyRows"),
    (21, Fault::TooManyBatches, "fault 21 TooManyBatches"),
    (22, Fault::Repeated, "fault 22 Repeated"),
    (23, Fault::Gap, "fault 23 Gap"),
    (24, Fault::BadQuery, "fault 24 BadQuery"),
    (25, Fault::NoSuchPrefix, "fault 25 NoSuchPrefix"),
    (
        26,
        Fault::TooManyCells { view: 170 },
        "fault 26 TooManyCells view 170",
    ),
    (
        27,
        Fault::TooManyMembers {
            place: MemberPlace::InDimension {
                axis: Axis::Supplier,
                row: 9,
            },
        },
        "fault 27 TooManyMembers supplier row 9",
    ),
    (
        27,
        Fault::TooManyMembers {
            place: MemberPlace::InStoredBatch { batch: 1, row: 2 },
        },
        "fault 27 TooManyMembers batch 1 row 2",
    ),
    (28, Fault::Worn, "fault 28 Worn"),
    (29, Fault::Input, "fault 29 Input"),
    (30, Fault::Output, "fault 30 Output"),
    (31, Fault::NotRunning, "fault 31 NotRunning"),
    (32, Fault::TooManyAdditions, "fault 32 TooManyAdditions"),
];

/// Whether a fault has a number and prints as a line.
fn is_printed(alloc: Global, number: u8, fault: Fault, line: &str) -> Result<bool, AllocError> {
    let printed = fault.to_string(alloc)?;
    Ok(fault.code() == number && printed.as_str() == line)
}

#[test]
fn faults_print_number_name_and_place(rt: HostRuntime) {
    for (number, fault, line) in &FAULTS {
        assert!(rt;
            is_printed(rt.alloc(), *number, *fault, line) == Ok(true),
            "{line}"
        );
    }
}
