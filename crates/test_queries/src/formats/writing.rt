//! What is written in each format.
use crate::formats::answers::report;
use report_formats::Format;
use std::test::Fail;

/// A format, how many digits after the point averages have, and the report.
static REPORTS: [(Format, Option<u32>, &[u8]); 8] = [
    (
        Format::Bars,
        None,
        b"c_region|d_year|count|avg(revenue)|sum(profit)\nEUROPE|1993|4|5/2|-7\na,b|say \"hi\"|3|2/3|0\n|tab\tline\nreturn\rback\\|1|-1/1|9223372036854775807\nALL|caf\xc3\xa9 \x01\x1f|8|-5/8|-9223372036854775808\n\xff\xc3\xa9|ALL|16|1/16|5\nALL|ALL|200|-1/200|6\nrows 6\n",
    ),
    (
        Format::Bars,
        Some(0),
        b"c_region|d_year|count|avg(revenue)|sum(profit)\nEUROPE|1993|4|3|-7\na,b|say \"hi\"|3|1|0\n|tab\tline\nreturn\rback\\|1|-1|9223372036854775807\nALL|caf\xc3\xa9 \x01\x1f|8|-1|-9223372036854775808\n\xff\xc3\xa9|ALL|16|0|5\nALL|ALL|200|0|6\nrows 6\n",
    ),
    (
        Format::Csv,
        None,
        b"c_region,d_year,count,avg(revenue),sum(profit)\r\nEUROPE,1993,4,5/2,-7\r\n\"a,b\",\"say \"\"hi\"\"\",3,2/3,0\r\n\"\",\"tab\tline\nreturn\rback\\\",1,-1/1,9223372036854775807\r\n,caf\xc3\xa9 \x01\x1f,8,-5/8,-9223372036854775808\r\n\xff\xc3\xa9,,16,1/16,5\r\n,,200,-1/200,6\r\n",
    ),
    (
        Format::Csv,
        Some(2),
        b"c_region,d_year,count,avg(revenue),sum(profit)\r\nEUROPE,1993,4,2.50,-7\r\n\"a,b\",\"say \"\"hi\"\"\",3,0.67,0\r\n\"\",\"tab\tline\nreturn\rback\\\",1,-1.00,9223372036854775807\r\n,caf\xc3\xa9 \x01\x1f,8,-0.63,-9223372036854775808\r\n\xff\xc3\xa9,,16,0.06,5\r\n,,200,-0.01,6\r\n",
    ),
    (
        Format::Tsv,
        None,
        b"c_region\td_year\tcount\tavg(revenue)\tsum(profit)\nEUROPE\t1993\t4\t5/2\t-7\na,b\tsay \"hi\"\t3\t2/3\t0\n\ttab\\tline\\nreturn\\rback\\\\\t1\t-1/1\t9223372036854775807\n\tcaf\xc3\xa9 \x01\x1f\t8\t-5/8\t-9223372036854775808\n\xff\xc3\xa9\t\t16\t1/16\t5\n\t\t200\t-1/200\t6\n",
    ),
    (
        Format::Tsv,
        Some(18),
        b"c_region\td_year\tcount\tavg(revenue)\tsum(profit)\nEUROPE\t1993\t4\t2.500000000000000000\t-7\na,b\tsay \"hi\"\t3\t0.666666666666666667\t0\n\ttab\\tline\\nreturn\\rback\\\\\t1\t-1.000000000000000000\t9223372036854775807\n\tcaf\xc3\xa9 \x01\x1f\t8\t-0.625000000000000000\t-9223372036854775808\n\xff\xc3\xa9\t\t16\t0.062500000000000000\t5\n\t\t200\t-0.005000000000000000\t6\n",
    ),
    (
        Format::Json,
        None,
        b"{\"c_region\":\"EUROPE\",\"d_year\":\"1993\",\"count\":4,\"avg(revenue)\":{\"sum\":10,\"count\":4},\"sum(profit)\":-7}\n{\"c_region\":\"a,b\",\"d_year\":\"say \\\"hi\\\"\",\"count\":3,\"avg(revenue)\":{\"sum\":2,\"count\":3},\"sum(profit)\":0}\n{\"c_region\":\"\",\"d_year\":\"tab\\tline\\nreturn\\rback\\\\\",\"count\":1,\"avg(revenue)\":{\"sum\":-1,\"count\":1},\"sum(profit)\":9223372036854775807}\n{\"c_region\":null,\"d_year\":\"caf\xc3\xa9 \\u0001\\u001f\",\"count\":8,\"avg(revenue)\":{\"sum\":-5,\"count\":8},\"sum(profit)\":-9223372036854775808}\n{\"c_region\":\"\\udcff\\udcc3\\udca9\",\"d_year\":null,\"count\":16,\"avg(revenue)\":{\"sum\":1,\"count\":16},\"sum(profit)\":5}\n{\"c_region\":null,\"d_year\":null,\"count\":200,\"avg(revenue)\":{\"sum\":-1,\"count\":200},\"sum(profit)\":6}\n",
    ),
    (
        Format::Json,
        Some(1),
        b"{\"c_region\":\"EUROPE\",\"d_year\":\"1993\",\"count\":4,\"avg(revenue)\":2.5,\"sum(profit)\":-7}\n{\"c_region\":\"a,b\",\"d_year\":\"say \\\"hi\\\"\",\"count\":3,\"avg(revenue)\":0.7,\"sum(profit)\":0}\n{\"c_region\":\"\",\"d_year\":\"tab\\tline\\nreturn\\rback\\\\\",\"count\":1,\"avg(revenue)\":-1.0,\"sum(profit)\":9223372036854775807}\n{\"c_region\":null,\"d_year\":\"caf\xc3\xa9 \\u0001\\u001f\",\"count\":8,\"avg(revenue)\":-0.6,\"sum(profit)\":-9223372036854775808}\n{\"c_region\":\"\\udcff\\udcc3\\udca9\",\"d_year\":null,\"count\":16,\"avg(revenue)\":0.1,\"sum(profit)\":5}\n{\"c_region\":null,\"d_year\":null,\"count\":200,\"avg(revenue)\":0.0,\"sum(profit)\":6}\n",
    ),
];

#[test]
fn reports_are_written_as_by_hand(rt: HostRuntime) -> Result<(), Fail> {
    for (place, (format, decimals, expected)) in REPORTS.iter().enumerate() {
        let written = report(rt.alloc(), *format, *decimals)?;
        assert!(rt; written.as_slice() == *expected, "report {place}");
    }
    Ok(())
}
