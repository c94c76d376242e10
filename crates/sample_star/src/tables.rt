//! The five sample tables as texts.

/// The texts of the five tables.
#[derive(Clone, Copy)]
pub struct Tables<'a> {
    pub customer: &'a [u8],
    pub supplier: &'a [u8],
    pub part: &'a [u8],
    pub date: &'a [u8],
    pub lineorder: &'a [u8],
}

/// Two customers, two suppliers, two parts, two days and three fact rows.
pub const TABLES: Tables<'static> = Tables {
    customer: b"1|C1|a|UNITED KI1|UNITED KINGDOM|EUROPE|p|M|\n2|C2|a|UNITED ST3|UNITED STATES|AMERICA|p|M|\n",
    supplier: b"1|S1|a|UNITED KI5|UNITED KINGDOM|EUROPE|p|\n2|S2|a|UNITED ST0|UNITED STATES|AMERICA|p|\n",
    part: b"1|n|MFGR#1|MFGR#12|MFGR#1210|red|t|7|box|\n2|n|MFGR#1|MFGR#14|MFGR#142|red|t|7|box|\n",
    date: b"19930105|January 5, 1993|Tuesday|January|1993|199301|Jan1993|3|5|5|1|1|Winter|0|0|0|1|\n19971202|December 2, 1997|Tuesday|December|1997|199712|Dec1997|3|2|336|12|49|Christmas|0|0|0|1|\n",
    lineorder: b"1|1|1|1|1|19930105|1-URGENT|0|17|1000|1000|2|980|600|0|19930201|AIR|\n2|1|2|2|2|19971202|5-LOW|0|24|2000|2000|3|1940|2000|0|19980101|RAIL|\n3|1|1|2|1|19971202|5-LOW|0|25|500|500|1|495|100|0|19980101|AIR|\n",
};
