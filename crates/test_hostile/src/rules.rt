//! Images that break the rules of the layout, one after the other.
use cube_model::{Agg, Attr, Fault, Measure};
use sample_sessions::{Change, add, as_is, ask, make_change, with_three};
use sample_star::{Asked, EVERY_ROW, ONE_CUSTOMER};
use sector_device::MemDisk;
use std::alloc::Global;
use warehouse::Session;

/// The sectors of a warehouse of one batch of the sample rows whose three cuboids hold it: the superblock of generation
/// 7, the dimensions, the segment, the runs of the views 59, 203 and 248, and the catalogue. Sector 0 has the
/// superblock of generation 6.
const SUPERBLOCK: u32 = 1;

const CUSTOMERS: u32 = 2;

const SUPPLIERS: u32 = 3;

const PARTS: u32 = 4;

const DATES: u32 = 5;

const SEGMENT: u32 = 7;

const CITIES: u32 = 6;

const BRANCHES: u32 = 8;

const RUN: u32 = 9;

const CATALOGUE: u32 = 11;

/// Those that are new after the addition of a third customer: the superblock of generation 8, the customers, and the
/// catalogue.
const ADDED_SUPERBLOCK: u32 = 0;

const ADDED_CUSTOMERS: u32 = 10;

const ADDED_CATALOGUE: u32 = 12;

/// What is found on a disk.
#[derive(Clone, Copy, PartialEq, Eq)]
enum Found {
    /// How the opening is refused.
    Refused(Fault),
    /// The generation that is opened, how the revenue by year is refused, and what an audit answers. The first is read
    /// from the run of view 248, the second from the batch and all runs.
    Opened(u64, Option<Fault>, Result<bool, Fault>),
}

const BAD: Found = Found::Refused(Fault::BadLayout);

/// The generation before is found, which had no cells of view 248 yet.
const EARLIER: Found = Found::Opened(6, None, Ok(true));

/// All is as if nothing were changed.
const SAME: Found = Found::Opened(7, None, Ok(true));

/// The batch is refused where it is read.
const BAD_BATCH: Found = Found::Opened(7, None, Err(Fault::BadLayout));

/// The run of view 248 is refused where it is read.
const BAD_RUN: Found = Found::Opened(7, Some(Fault::BadLayout), Ok(false));

/// A run of another view is refused where it is read.
const BAD_OTHER_RUN: Found = Found::Opened(7, None, Ok(false));

/// All is as if nothing were changed after the addition, and the batch is refused where it is read.
const SAME_ADDED: Found = Found::Opened(8, None, Ok(true));

const BAD_ADDED_BATCH: Found = Found::Opened(8, None, Err(Fault::BadLayout));

/// A rule, the bytes that break it, and what is found then.
type Rule = (&'static str, &'static [Change], Found);

static OF_SUPERBLOCKS: [Rule; 20] = [
    ("the name", &[(SUPERBLOCK, 0, b"s")], EARLIER),
    ("the name ends with 1", &[(SUPERBLOCK, 7, b"2")], EARLIER),
    ("layout 1 at least", &[(SUPERBLOCK, 8, b"\x00")], EARLIER),
    ("layout 2 at most", &[(SUPERBLOCK, 8, b"\x03")], EARLIER),
    ("layout 1 alone is read", &[(SUPERBLOCK, 8, b"\x02")], BAD),
    ("64 sectors at least", &[(SUPERBLOCK, 12, b"\x3f")], EARLIER),
    (
        "the sectors of the device",
        &[(SUPERBLOCK, 12, b"\x41")],
        Found::Refused(Fault::DeviceSize),
    ),
    (
        "generation 1 at least",
        &[(SUPERBLOCK, 16, b"\x00")],
        EARLIER,
    ),
    (
        "an odd generation in slot 1",
        &[(SUPERBLOCK, 16, b"\x08")],
        EARLIER,
    ),
    (
        "the greater generation",
        &[(SUPERBLOCK, 16, b"\x05")],
        EARLIER,
    ),
    (
        "the catalogue after slot 0",
        &[(SUPERBLOCK, 24, b"\x00")],
        EARLIER,
    ),
    (
        "the catalogue after slot 1",
        &[(SUPERBLOCK, 24, b"\x01")],
        EARLIER,
    ),
    (
        "the catalogue before the end",
        &[(SUPERBLOCK, 24, b"\x40")],
        EARLIER,
    ),
    (
        "all of it",
        &[(SUPERBLOCK, 24, b"\x3f\x00\x00\x00\x01\x02")],
        EARLIER,
    ),
    ("12 bytes at least", &[(SUPERBLOCK, 28, b"\x0b")], EARLIER),
    (
        "134,217,728 bytes at most",
        &[(SUPERBLOCK, 28, b"\x01\x00\x00\x08")],
        EARLIER,
    ),
    ("zeros from 32 on", &[(SUPERBLOCK, 32, b"\x01")], EARLIER),
    ("zeros to the end", &[(SUPERBLOCK, 511, b"\x80")], EARLIER),
    (
        "an even generation in slot 0",
        &[(SUPERBLOCK, 0, b"s"), (0, 16, b"\x05")],
        Found::Refused(Fault::NotFormatted),
    ),
    (
        "one superblock",
        &[(SUPERBLOCK, 0, b"s"), (0, 0, b"s")],
        Found::Refused(Fault::NotFormatted),
    ),
];

/// The catalogue has 8 entries, and from byte 140 on a root of 104.
static OF_CATALOGUES: [Rule; 36] = [
    ("the name", &[(CATALOGUE, 0, b"c")], BAD),
    ("a byte less", &[(SUPERBLOCK, 28, b"\xf3")], BAD),
    ("a byte more", &[(SUPERBLOCK, 28, b"\xf5")], BAD),
    ("an entry less", &[(CATALOGUE, 4, b"\x07")], BAD),
    ("an entry more", &[(CATALOGUE, 4, b"\x09")], BAD),
    (
        "an entry more, of the root",
        &[(CATALOGUE, 4, b"\x09\x00\x00\x00\x58")],
        BAD,
    ),
    (
        "65,536 entries at most",
        &[(CATALOGUE, 4, b"\x01\x00\x01\x00")],
        BAD,
    ),
    ("a byte less of the root", &[(CATALOGUE, 8, b"\x67")], BAD),
    ("a byte more of it", &[(CATALOGUE, 8, b"\x69")], BAD),
    (
        "65,536 bytes of it at most",
        &[(CATALOGUE, 8, b"\x01\x00\x01\x00")],
        BAD,
    ),
    ("ids ascend", &[(CATALOGUE, 12, b"\x03")], BAD),
    ("no id twice", &[(CATALOGUE, 12, b"\x02")], BAD),
    ("an object has a byte", &[(CATALOGUE, 20, b"\x00")], BAD),
    (
        "134,217,728 at most",
        &[(CATALOGUE, 20, b"\x01\x00\x00\x08")],
        BAD,
    ),
    ("in eight bytes", &[(CATALOGUE, 24, b"\x01")], BAD),
    ("an object after slot 0", &[(CATALOGUE, 16, b"\x00")], BAD),
    ("an object after slot 1", &[(CATALOGUE, 16, b"\x01")], BAD),
    ("an object before the end", &[(CATALOGUE, 16, b"\x40")], BAD),
    (
        "far before the end",
        &[(CATALOGUE, 16, b"\xff\xff\xff\xff")],
        BAD,
    ),
    (
        "all of it",
        &[(CATALOGUE, 16, b"\x3f\x00\x00\x00\x01\x02")],
        BAD,
    ),
    ("apart from another", &[(CATALOGUE, 16, b"\x03")], BAD),
    ("all of it apart", &[(CATALOGUE, 20, b"\x01\x02")], BAD),
    ("apart from the catalogue", &[(CATALOGUE, 16, b"\x0b")], BAD),
    (
        "all of it apart from that",
        &[(CATALOGUE, 16, b"\x0a\x00\x00\x00\x01\x02")],
        BAD,
    ),
    ("the days", &[(CATALOGUE, 60, b"\x05")], BAD),
    ("the segment of batch 1", &[(CATALOGUE, 76, b"\x02")], BAD),
    ("the first run", &[(CATALOGUE, 124, b"\x81")], BAD),
    ("the run of the view", &[(CATALOGUE, 124, b"\x90")], BAD),
    ("customers of a byte less", &[(CATALOGUE, 20, b"\x6d")], BAD),
    ("suppliers of a byte more", &[(CATALOGUE, 36, b"\x6f")], BAD),
    ("parts of a byte less", &[(CATALOGUE, 52, b"\x55")], BAD),
    ("days of a byte more", &[(CATALOGUE, 68, b"\x62")], BAD),
    (
        "a segment of a byte less",
        &[(CATALOGUE, 84, b"\x1c")],
        BAD_BATCH,
    ),
    ("of a byte more", &[(CATALOGUE, 84, b"\x1e")], BAD_BATCH),
    (
        "a run of a byte less",
        &[(CATALOGUE, 132, b"\x53")],
        BAD_RUN,
    ),
    ("of a byte more", &[(CATALOGUE, 132, b"\x55")], BAD_RUN),
];

/// The root begins at byte 140 of the catalogue, its totals at 156, the rows of the batch at 204, and the cuboid of
/// view 248 at 232.
static OF_ROOTS: [Rule; 35] = [
    ("a batch less", &[(CATALOGUE, 140, b"\x00")], BAD),
    ("a batch more", &[(CATALOGUE, 140, b"\x02")], BAD),
    (
        "4,096 batches at most",
        &[(CATALOGUE, 140, b"\x01\x10")],
        BAD,
    ),
    ("a target of the batches", &[(CATALOGUE, 144, b"\x02")], BAD),
    (
        "a lower one is none of another",
        &[(CATALOGUE, 144, b"\x00")],
        SAME,
    ),
    (
        "4,096 additions at most",
        &[(CATALOGUE, 148, b"\x01\x10")],
        BAD,
    ),
    ("a cuboid less", &[(CATALOGUE, 152, b"\x02")], BAD),
    ("a cuboid more", &[(CATALOGUE, 152, b"\x04")], BAD),
    ("16 cuboids at most", &[(CATALOGUE, 152, b"\x11")], BAD),
    ("the total of quantities", &[(CATALOGUE, 163, b"\x80")], BAD),
    ("of prices", &[(CATALOGUE, 171, b"\x80")], BAD),
    ("of revenues", &[(CATALOGUE, 179, b"\x80")], BAD),
    ("of costs", &[(CATALOGUE, 187, b"\x80")], BAD),
    ("of discounted prices", &[(CATALOGUE, 195, b"\x80")], BAD),
    ("of profits", &[(CATALOGUE, 203, b"\xff")], BAD),
    (
        "65,536 rows at most",
        &[(CATALOGUE, 204, b"\x01\x00\x01")],
        BAD,
    ),
    (
        "the rows of the batch",
        &[(CATALOGUE, 204, b"\x04")],
        BAD_BATCH,
    ),
    // A scan is taken then.
    (
        "no fewer",
        &[(CATALOGUE, 204, b"\x02")],
        Found::Opened(7, Some(Fault::BadLayout), Err(Fault::BadLayout)),
    ),
    ("views ascend", &[(CATALOGUE, 232, b"\x3a")], BAD),
    ("no view twice", &[(CATALOGUE, 232, b"\xcb")], BAD),
    ("views below 256", &[(CATALOGUE, 233, b"\x01")], BAD),
    ("the view of the run", &[(CATALOGUE, 232, b"\xf9")], BAD),
    ("a run at a mark", &[(CATALOGUE, 234, b"\x00")], BAD),
    ("8 runs at most", &[(CATALOGUE, 234, b"\x09")], BAD),
    ("the runs there are", &[(CATALOGUE, 234, b"\x02")], BAD),
    ("in two bytes", &[(CATALOGUE, 235, b"\x01")], BAD),
    ("no run at mark 0", &[(CATALOGUE, 236, b"\x00")], BAD),
    ("a mark of the batches", &[(CATALOGUE, 236, b"\x02")], BAD),
    ("in four bytes", &[(CATALOGUE, 239, b"\x80")], BAD),
    (
        "262,144 cells at most",
        &[(CATALOGUE, 240, b"\x01\x00\x04")],
        BAD,
    ),
    (
        "no fewer cells than there are",
        &[(CATALOGUE, 240, b"\x01")],
        BAD_RUN,
    ),
    // A scan is taken then.
    ("no more", &[(CATALOGUE, 240, b"\x03")], BAD_OTHER_RUN),
    (
        "no cells without a run",
        &[(CATALOGUE, 234, b"\x00\x00\x00\x00\x00\x00\x02")],
        BAD,
    ),
    (
        "no run that is not asked for",
        &[(CATALOGUE, 234, b"\x00\x00\x00\x00\x00\x00\x00")],
        BAD,
    ),
    (
        "no cuboid that is not there",
        &[(CATALOGUE, 220, b"\xca")],
        BAD,
    ),
];

/// Of customers the texts of cities begin at byte 12, of nations at 38, of regions at 71, the codes of nations at 90,
/// of regions at 94, the keys at 98, the codes of cities at 106. Suppliers are alike. Of parts these are 12, 35, 55,
/// 66, 70, 74, 82.
static OF_PLACES: [Rule; 45] = [
    ("the name", &[(CUSTOMERS, 0, b"d")], BAD),
    ("the axis of customers", &[(CUSTOMERS, 4, b"\x01")], BAD),
    ("in four bytes", &[(CUSTOMERS, 7, b"\x01")], BAD),
    ("a row less", &[(CUSTOMERS, 8, b"\x01")], BAD),
    ("a row more", &[(CUSTOMERS, 8, b"\x03")], BAD),
    (
        "4,194,304 rows at most",
        &[(CUSTOMERS, 8, b"\x01\x00\x40")],
        BAD,
    ),
    ("a city less", &[(CUSTOMERS, 12, b"\x01")], BAD),
    ("a city more", &[(CUSTOMERS, 12, b"\x03")], BAD),
    (
        "65,535 cities at most",
        &[(CUSTOMERS, 12, b"\x00\x00\x01")],
        BAD,
    ),
    ("a shorter text", &[(CUSTOMERS, 16, b"\x09")], BAD),
    ("a longer text", &[(CUSTOMERS, 27, b"\x0b")], BAD),
    ("no city twice", &[(CUSTOMERS, 28, b"UNITED KI1")], BAD),
    (
        "no city ALL",
        &[(CUSTOMERS, 16, b"\x03ALL\x11ABCDEFGHIJKLMNOPQ")],
        BAD,
    ),
    ("a nation less", &[(CUSTOMERS, 38, b"\x01")], BAD),
    (
        "no nation ALL",
        &[(CUSTOMERS, 42, b"\x03ALL\x18ABCDEFGHIJKLMNOPQRSTUVWX")],
        BAD,
    ),
    ("a region more", &[(CUSTOMERS, 71, b"\x03")], BAD),
    (
        "no region ALL",
        &[(CUSTOMERS, 75, b"\x03ALL\x0aABCDEFGHIJ")],
        BAD,
    ),
    (
        "nations in the order of cities",
        &[(CUSTOMERS, 90, b"\x01\x00\x00\x00")],
        BAD,
    ),
    ("each nation has a city", &[(CUSTOMERS, 92, b"\x00")], BAD),
    ("the code of a nation", &[(CUSTOMERS, 92, b"\x02")], BAD),
    ("in two bytes", &[(CUSTOMERS, 93, b"\x01")], BAD),
    (
        "regions in the order of nations",
        &[(CUSTOMERS, 94, b"\x01\x00\x00\x00")],
        BAD,
    ),
    ("each region has a nation", &[(CUSTOMERS, 96, b"\x00")], BAD),
    ("the code of a region", &[(CUSTOMERS, 96, b"\x02")], BAD),
    ("no key twice", &[(CUSTOMERS, 102, b"\x01")], BAD),
    // The batch has a customer that is not there.
    ("another key", &[(CUSTOMERS, 102, b"\x03")], BAD_BATCH),
    (
        "cities in the order of rows",
        &[(CUSTOMERS, 106, b"\x01\x00\x00\x00")],
        BAD,
    ),
    ("each city has a row", &[(CUSTOMERS, 108, b"\x00")], BAD),
    ("the code of a city", &[(CUSTOMERS, 108, b"\x03")], BAD),
    ("the greatest code", &[(CUSTOMERS, 108, b"\xff\xff")], BAD),
    ("the axis of suppliers", &[(SUPPLIERS, 4, b"\x00")], BAD),
    ("no supplier twice", &[(SUPPLIERS, 98, b"\x02")], BAD),
    ("the city of a supplier", &[(SUPPLIERS, 106, b"\x02")], BAD),
    (
        "no region of one ALL",
        &[(SUPPLIERS, 75, b"\x0aABCDEFGHIJ\x03ALL")],
        BAD,
    ),
    ("the axis of parts", &[(PARTS, 4, b"\x03")], BAD),
    ("a brand less", &[(PARTS, 12, b"\x01")], BAD),
    (
        "no brand ALL",
        &[(PARTS, 16, b"\x0eABCDEFGHIJKLMN\x03ALL")],
        BAD,
    ),
    ("no category twice", &[(PARTS, 48, b"MFGR#12")], BAD),
    (
        "no category ALL",
        &[(PARTS, 39, b"\x03ALL\x0bABCDEFGHIJK")],
        BAD,
    ),
    ("a shorter manufacturer", &[(PARTS, 59, b"\x05")], BAD),
    (
        "categories in the order of brands",
        &[(PARTS, 66, b"\x01\x00\x00\x00")],
        BAD,
    ),
    (
        "the manufacturer of a category",
        &[(PARTS, 72, b"\x01")],
        BAD,
    ),
    ("no part twice", &[(PARTS, 74, b"\x02")], BAD),
    ("each brand has a part", &[(PARTS, 84, b"\x00")], BAD),
    ("the brand of a part", &[(PARTS, 84, b"\x02")], BAD),
];

/// Of days the texts of months begin at byte 12, of yearmonths at 30, of years at 50, of weeks at 64, the codes of
/// yearmonths at 73, of years at 77, the keys at 81, the codes of months at 89, of weeks at 93.
static OF_DAYS: [Rule; 27] = [
    ("the name", &[(DATES, 3, b"2")], BAD),
    ("the axis of days", &[(DATES, 4, b"\x02")], BAD),
    ("a row less", &[(DATES, 8, b"\x01")], BAD),
    ("65,535 rows at most", &[(DATES, 8, b"\x00\x00\x01")], BAD),
    ("a month less", &[(DATES, 12, b"\x01")], BAD),
    ("no month twice", &[(DATES, 24, b"199301")], BAD),
    ("no month ALL", &[(DATES, 16, b"\x03ALL\x09123456789")], BAD),
    ("no yearmonth twice", &[(DATES, 43, b"Jan1993")], BAD),
    (
        "no yearmonth ALL",
        &[(DATES, 34, b"\x0bABCDEFGHIJK\x03ALL")],
        BAD,
    ),
    ("no year twice", &[(DATES, 60, b"1993")], BAD),
    ("no year ALL", &[(DATES, 54, b"\x03ALL\x05ABCDE")], BAD),
    ("a week more", &[(DATES, 64, b"\x03")], BAD),
    ("no week ALL", &[(DATES, 68, b"\x03ALL\x00")], BAD),
    (
        "yearmonths in the order of months",
        &[(DATES, 73, b"\x01\x00\x00\x00")],
        BAD,
    ),
    ("each yearmonth has a month", &[(DATES, 75, b"\x00")], BAD),
    ("the yearmonth of a month", &[(DATES, 75, b"\x02")], BAD),
    (
        "years in the order of months",
        &[(DATES, 77, b"\x01\x00\x00\x00")],
        BAD,
    ),
    ("each year has a month", &[(DATES, 79, b"\x00")], BAD),
    ("the year of a month", &[(DATES, 79, b"\x02")], BAD),
    ("no day twice", &[(DATES, 85, b"\xf9\x1b")], BAD),
    (
        "months in the order of rows",
        &[(DATES, 89, b"\x01\x00\x00\x00")],
        BAD,
    ),
    ("each month has a day", &[(DATES, 91, b"\x00")], BAD),
    ("the month of a day", &[(DATES, 91, b"\x02")], BAD),
    (
        "weeks in the order of rows",
        &[(DATES, 93, b"\x01\x00\x00\x00")],
        BAD,
    ),
    ("each week has a day", &[(DATES, 95, b"\x00")], BAD),
    ("the week of a day", &[(DATES, 95, b"\x02")], BAD),
    ("in two bytes", &[(DATES, 96, b"\x01")], BAD),
];

/// Of the segment the texts begin at byte 201 (orderpriority), 226, 238 and 266, and the codes at 220, 232, 260 and
/// 279.
static OF_SEGMENTS: [Rule; 38] = [
    ("the name", &[(SEGMENT, 0, b"s")], BAD_BATCH),
    ("the batch's number", &[(SEGMENT, 4, b"\x02")], BAD_BATCH),
    ("in four bytes", &[(SEGMENT, 7, b"\x01")], BAD_BATCH),
    ("a row less", &[(SEGMENT, 8, b"\x02")], BAD_BATCH),
    ("a row more", &[(SEGMENT, 8, b"\x04")], BAD_BATCH),
    (
        "65,536 rows at most",
        &[(SEGMENT, 8, b"\x01\x00\x01")],
        BAD_BATCH,
    ),
    (
        "an orderkey below 2 ^ 63",
        &[(SEGMENT, 19, b"\x80")],
        BAD_BATCH,
    ),
    ("a price", &[(SEGMENT, 106, b"\x80")], BAD_BATCH),
    (
        "the price of an order",
        &[(SEGMENT, 138, b"\xff")],
        BAD_BATCH,
    ),
    ("a revenue", &[(SEGMENT, 173, b"\x80")], BAD_BATCH),
    ("a cost", &[(SEGMENT, 189, b"\x80")], BAD_BATCH),
    (
        "a customer that is there",
        &[(SEGMENT, 48, b"\x09")],
        BAD_BATCH,
    ),
    ("a part", &[(SEGMENT, 60, b"\x00")], BAD_BATCH),
    ("a supplier", &[(SEGMENT, 80, b"\x03")], BAD_BATCH),
    ("a day", &[(SEGMENT, 84, b"\xfa")], BAD_BATCH),
    ("a priority less", &[(SEGMENT, 201, b"\x01")], BAD_BATCH),
    ("a priority more", &[(SEGMENT, 201, b"\x03")], BAD_BATCH),
    (
        "65,536 texts at most",
        &[(SEGMENT, 201, b"\x01\x00\x01")],
        BAD_BATCH,
    ),
    ("a shorter text", &[(SEGMENT, 205, b"\x07")], BAD_BATCH),
    ("a longer text", &[(SEGMENT, 214, b"\x06")], BAD_BATCH),
    (
        "priorities in the order of rows",
        &[(SEGMENT, 220, b"\x01\x00\x00\x00\x00")],
        BAD_BATCH,
    ),
    (
        "each priority has a row",
        &[(SEGMENT, 222, b"\x00\x00\x00")],
        BAD_BATCH,
    ),
    (
        "the code of a priority",
        &[(SEGMENT, 224, b"\x02")],
        BAD_BATCH,
    ),
    ("no ship priority", &[(SEGMENT, 226, b"\x00")], BAD_BATCH),
    (
        "the code of a ship priority",
        &[(SEGMENT, 236, b"\x01")],
        BAD_BATCH,
    ),
    ("in two bytes", &[(SEGMENT, 237, b"\x01")], BAD_BATCH),
    ("a date less", &[(SEGMENT, 238, b"\x01")], BAD_BATCH),
    ("no date twice", &[(SEGMENT, 252, b"19930201")], BAD_BATCH),
    (
        "dates in the order of rows",
        &[(SEGMENT, 260, b"\x01\x00\x00")],
        BAD_BATCH,
    ),
    (
        "each date has a row",
        &[(SEGMENT, 262, b"\x00\x00\x00")],
        BAD_BATCH,
    ),
    ("the code of a date", &[(SEGMENT, 264, b"\x02")], BAD_BATCH),
    ("a ship mode more", &[(SEGMENT, 266, b"\x03")], BAD_BATCH),
    (
        "a ship mode of a byte less",
        &[(SEGMENT, 274, b"\x03")],
        BAD_BATCH,
    ),
    (
        "ship modes in the order of rows",
        &[(SEGMENT, 279, b"\x01\x00")],
        BAD_BATCH,
    ),
    (
        "each ship mode has a row",
        &[(SEGMENT, 281, b"\x00")],
        BAD_BATCH,
    ),
    (
        "the code of a ship mode",
        &[(SEGMENT, 279, b"\x02\x00")],
        BAD_BATCH,
    ),
    (
        "the greatest code",
        &[(SEGMENT, 283, b"\xff\xff")],
        BAD_BATCH,
    ),
    (
        "bytes after the end are not looked at",
        &[(SEGMENT, 285, b"\x01")],
        SAME,
    ),
];

/// The first cell of a run begins at byte 20, its number of rows is at 28, and the second cell begins at 180.
static OF_RUNS: [Rule; 28] = [
    ("the name", &[(RUN, 0, b"c")], BAD_RUN),
    (
        "the name of cells without ship modes",
        &[(RUN, 3, b"2")],
        BAD_RUN,
    ),
    ("the view", &[(RUN, 4, b"\xf9")], BAD_RUN),
    ("a view of other codes", &[(RUN, 4, b"\xcb")], BAD_RUN),
    ("a view below 256", &[(RUN, 5, b"\x01")], BAD_RUN),
    (
        "from the first batch",
        &[(RUN, 8, b"\x01\x00\x00\x00\x02")],
        BAD_RUN,
    ),
    ("from before its end", &[(RUN, 8, b"\x01")], BAD_RUN),
    ("to a batch", &[(RUN, 12, b"\x00")], BAD_RUN),
    ("to the mark", &[(RUN, 12, b"\x02")], BAD_RUN),
    ("no cell less", &[(RUN, 16, b"\x01")], BAD_RUN),
    ("no cell more", &[(RUN, 16, b"\x03")], BAD_RUN),
    (
        "262,144 cells at most",
        &[(RUN, 16, b"\x01\x00\x04")],
        BAD_RUN,
    ),
    ("no customer", &[(RUN, 20, b"\x00\x00")], BAD_RUN),
    ("no supplier", &[(RUN, 182, b"\x00\x00")], BAD_RUN),
    ("a manufacturer", &[(RUN, 24, b"\xff\xff")], BAD_RUN),
    ("a day", &[(RUN, 186, b"\xff\xff")], BAD_RUN),
    ("a day that is there", &[(RUN, 186, b"\x02")], BAD_RUN),
    ("cells ascend", &[(RUN, 26, b"\x02")], BAD_RUN),
    ("no cell twice", &[(RUN, 26, b"\x01")], BAD_RUN),
    ("a cell has a row", &[(RUN, 28, b"\x00")], BAD_RUN),
    ("as many as there are", &[(RUN, 28, b"\x02")], BAD_OTHER_RUN),
    ("the sum", &[(RUN, 36, b"\x12")], BAD_OTHER_RUN),
    ("the least", &[(RUN, 44, b"\x10")], BAD_OTHER_RUN),
    ("the greatest", &[(RUN, 339, b"\x80")], BAD_OTHER_RUN),
    (
        "the name of a run of cities",
        &[(CITIES, 0, b"c")],
        BAD_OTHER_RUN,
    ),
    ("its view", &[(CITIES, 4, b"\xf8")], BAD_OTHER_RUN),
    (
        "the cells of a run of suppliers",
        &[(BRANCHES, 16, b"\x01")],
        BAD_OTHER_RUN,
    ),
    (
        "bytes after the end are not looked at",
        &[(RUN, 340, b"\x01")],
        SAME,
    ),
];

/// Changes after the addition. The root begins at byte 140 of the catalogue. Of three customers the texts of cities
/// begin at byte 12, of nations at 49, of regions at 82, the codes of nations at 101, of regions at 107, the keys at
/// 111, the codes of cities at 123.
static OF_ADDITIONS: [Rule; 24] = [
    (
        "the name of the newest superblock",
        &[(ADDED_SUPERBLOCK, 0, b"s")],
        SAME,
    ),
    (
        "customers of a byte less",
        &[(ADDED_CATALOGUE, 20, b"\x80")],
        BAD,
    ),
    ("of a byte more", &[(ADDED_CATALOGUE, 20, b"\x82")], BAD),
    (
        "apart from suppliers",
        &[(ADDED_CATALOGUE, 16, b"\x03")],
        BAD,
    ),
    (
        "4,096 additions at most",
        &[(ADDED_CATALOGUE, 148, b"\x01\x10")],
        BAD,
    ),
    ("in four bytes", &[(ADDED_CATALOGUE, 151, b"\x01")], BAD),
    // How often rows were added is a rule of no object.
    (
        "so many additions",
        &[(ADDED_CATALOGUE, 148, b"\x00\x10")],
        SAME_ADDED,
    ),
    (
        "no addition",
        &[(ADDED_CATALOGUE, 148, b"\x00")],
        SAME_ADDED,
    ),
    (
        "the customers of before",
        &[(ADDED_CATALOGUE, 16, b"\x02\x00\x00\x00\x6e")],
        SAME_ADDED,
    ),
    (
        "the axis of customers",
        &[(ADDED_CUSTOMERS, 4, b"\x01")],
        BAD,
    ),
    ("a row less", &[(ADDED_CUSTOMERS, 8, b"\x02")], BAD),
    ("a row more", &[(ADDED_CUSTOMERS, 8, b"\x04")], BAD),
    ("a city less", &[(ADDED_CUSTOMERS, 12, b"\x02")], BAD),
    (
        "no new city twice",
        &[(ADDED_CUSTOMERS, 39, b"UNITED KI1")],
        BAD,
    ),
    (
        "no new city ALL",
        &[(ADDED_CUSTOMERS, 27, b"\x11ABCDEFGHIJKLMNOPQ\x03ALL")],
        BAD,
    ),
    (
        "the nation of a new city",
        &[(ADDED_CUSTOMERS, 105, b"\x02")],
        BAD,
    ),
    ("no new key twice", &[(ADDED_CUSTOMERS, 119, b"\x01")], BAD),
    // No batch has the new customer.
    (
        "another new key",
        &[(ADDED_CUSTOMERS, 119, b"\x04")],
        SAME_ADDED,
    ),
    (
        "another key of a batch",
        &[(ADDED_CUSTOMERS, 115, b"\x04")],
        BAD_ADDED_BATCH,
    ),
    (
        "new cities in the order of rows",
        &[(ADDED_CUSTOMERS, 125, b"\x02\x00\x01\x00")],
        BAD,
    ),
    (
        "each new city has a row",
        &[(ADDED_CUSTOMERS, 127, b"\x01")],
        BAD,
    ),
    (
        "the code of a new city",
        &[(ADDED_CUSTOMERS, 127, b"\x03")],
        BAD,
    ),
    (
        "bytes after the end are not looked at",
        &[(ADDED_CUSTOMERS, 129, b"\x01")],
        SAME_ADDED,
    ),
    (
        "nor are the customers of before",
        &[(CUSTOMERS, 0, b"d")],
        SAME_ADDED,
    ),
];

const BY_YEAR: Asked<'static> = Asked {
    columns: &[Attr::DateYear],
    aggregates: &[Agg::Sum(Measure::Revenue)],
    ..EVERY_ROW
};

fn asked(alloc: Global, session: &mut Session<MemDisk>) -> Result<Found, Fault> {
    let generation = session.status()?.generation;
    let refused = ask(alloc, session, 1, &BY_YEAR).err();
    Ok(Found::Opened(generation, refused, session.audit(alloc)))
}

/// The disk of the warehouse, or of the same after the addition.
fn image(alloc: Global, added: bool) -> Result<MemDisk, Fault> {
    let mut session = with_three(alloc, 1)?;
    if added {
        add(alloc, &mut session, 1, &ONE_CUSTOMER)?;
    }
    Ok(session.close())
}

/// What is found on that disk with changes.
fn seen(alloc: Global, added: bool, changes: &[Change]) -> Result<Found, Fault> {
    let mut disk = image(alloc, added)?;
    for change in changes {
        make_change(&mut disk, *change)?;
    }
    match as_is(alloc, disk) {
        Ok(mut session) => asked(alloc, &mut session),
        Err(fault) => Ok(Found::Refused(fault)),
    }
}

#[test]
fn each_rule_is_checked(rt: HostRuntime) {
    let tables: [(bool, &[Rule]); 8] = [
        (false, &OF_SUPERBLOCKS),
        (false, &OF_CATALOGUES),
        (false, &OF_ROOTS),
        (false, &OF_PLACES),
        (false, &OF_DAYS),
        (false, &OF_SEGMENTS),
        (false, &OF_RUNS),
        (true, &OF_ADDITIONS),
    ];
    for (table, (added, rules)) in tables.iter().enumerate() {
        for (rule, changes, wanted) in rules.iter() {
            assert!(rt;
                seen(rt.alloc(), *added, changes) == Ok(*wanted),
                "table {table}: {rule}"
            );
        }
    }
}
