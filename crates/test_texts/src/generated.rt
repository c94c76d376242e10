//! The tables of scale 0.01 and seed 1, compared with those that another program wrote, and the texts of scales.
use std::alloc::Global;
use std::io;
use std::test::Fail;
use table_generator::{
    Random, Scale, write_customers, write_dates, write_lineorders, write_parts, write_suppliers,
};

/// A table as it was written elsewhere: how many bytes it has, its first line and its last.
struct Table {
    bytes: usize,
    first: &'static [u8],
    last: &'static [u8],
}

/// By `bench/tables.rs`, which the Rust compiler built: customers, suppliers, parts, days and fact rows.
static TABLES: [Table; 5] = [
    Table {
        bytes: 27_356,
        first: b"1|Customer#000000001|some street 1|MOZAMBIQU0|MOZAMBIQUE|AFRICA|20-661-348-1045|BUILDING|\n",
        last: b"\n300|Customer#000000300|some street 300|VIETNAM  7|VIETNAM|ASIA|29-200-972-4647|BUILDING|\n",
    },
    Table {
        bytes: 1_600,
        first: b"1|Supplier#000000001|some street 1|RUSSIA   5|RUSSIA|EUROPE|33-297-346-8024|\n",
        last: b"\n20|Supplier#000000020|some street 20|CANADA   3|CANADA|AMERICA|10-878-364-2112|\n",
    },
    Table {
        bytes: 162_082,
        first: b"1|lace spring|MFGR#4|MFGR#43|MFGR#4334|green|PROMO BURNISHED TIN|41|JUMBO PKG|\n",
        last: b"\n2000|lace spring|MFGR#1|MFGR#13|MFGR#1334|green|PROMO BURNISHED TIN|37|JUMBO PKG|\n",
    },
    Table {
        bytes: 229_101,
        first: b"19920101|January 1, 1992|Wednesday|January|1992|199201|Jan1992|4|1|1|1|1|Season|0|0|0|1|\n",
        last: b"\n19981230|December 30, 1998|Wednesday|December|1998|199812|Dec1998|4|30|364|12|52|Season|0|0|0|1|\n",
    },
    Table {
        bytes: 5_365_272,
        first: b"1|1|134|1192|7|19930324|3-MEDIUM|0|21|2295699|2410483|2|2249785|65591|5|19930506|MAIL|\n",
        last: b"\n15000|5|20|450|20|19970829|2-HIGH|0|17|2295765|2410553|10|2066188|81027|2|19971122|TRUCK|\n",
    },
];

impl Table {
    fn is(&self, text: &[u8]) -> bool {
        text.len() == self.bytes && text.starts_with(self.first) && text.ends_with(self.last)
    }
}

fn write_table(
    place: usize,
    out: &mut Vec<u8>,
    random: &mut Random,
    scale: Scale,
) -> io::Result<()> {
    match place {
        0 => write_customers(out, random, scale),
        1 => write_suppliers(out, random, scale),
        2 => write_parts(out, random, scale),
        3 => write_dates(out),
        _ => write_lineorders(out, random, scale),
    }
}

/// Whether each table of a scale is the one that was written elsewhere.
fn are_those(alloc: Global, scale: Scale) -> io::Result<bool> {
    let mut random = Random::new(1);
    let mut out = Vec::new(alloc);
    for (place, table) in TABLES.iter().enumerate() {
        out.clear();
        write_table(place, &mut out, &mut random, scale)?;
        if !table.is(out.as_slice()) {
            return Ok(false);
        }
    }
    Ok(true)
}

#[test]
fn tables_are_those_of_another_generator(rt: HostRuntime) -> Result<(), Fail> {
    let scale = Scale::of_text("0.01");
    assert!(rt; scale.is_some());
    if let Some(scale) = scale {
        assert!(rt; are_those(rt.alloc(), scale)?);
    }
    Ok(())
}

/// Texts of scales, and the hundredths of each, or 0 where it is none.
static SCALES: [(&str, u32); 16] = [
    ("1", 100),
    ("0.01", 1),
    ("0.1", 10),
    ("0.25", 25),
    ("12.5", 1_250),
    ("100", 10_000),
    ("100.00", 10_000),
    ("100.01", 0),
    ("0", 0),
    ("0.001", 0),
    ("1.", 0),
    (".5", 0),
    ("+1", 0),
    ("1e2", 0),
    ("0x1", 0),
    ("", 0),
];

/// The first text whose scale is another.
fn first_other() -> Option<&'static str> {
    for (text, hundredths) in &SCALES {
        if Scale::of_text(text) != Scale::of_hundredths(*hundredths) {
            return Some(*text);
        }
    }
    None
}

#[test]
fn scales_have_at_most_two_digits_after_the_point(rt: HostRuntime) -> Result<(), Fail> {
    assert!(rt; first_other().is_none());
    Ok(())
}
