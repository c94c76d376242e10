//! The numbers of the benchmark's queries.
ghost use Rattle.std.specs.Prelude.{◌≡◌};
ghost use Rattle.ssb_reports.specs.Benchmark.{query_number_text};

/// A query of the benchmark: its flight, and its place there.
#[derive(Clone, Copy, PartialEq, Eq)]
pub enum QNumber {
    Q11,
    Q12,
    Q13,
    Q21,
    Q22,
    Q23,
    Q31,
    Q32,
    Q33,
    Q34,
    Q41,
    Q42,
    Q43,
}

impl QNumber {
    /// The thirteen numbers, in their order.
    pub const ALL: [QNumber; 13] = [
        QNumber::Q11,
        QNumber::Q12,
        QNumber::Q13,
        QNumber::Q21,
        QNumber::Q22,
        QNumber::Q23,
        QNumber::Q31,
        QNumber::Q32,
        QNumber::Q33,
        QNumber::Q34,
        QNumber::Q41,
        QNumber::Q42,
        QNumber::Q43,
    ];

    /// The number as it is written, such as `2.1`.
    pub fn name(self) -> &'static str
        ensures { result.now ≡ query_number_text self }
    {
        match self {
            QNumber::Q11 => "1.1",
            QNumber::Q12 => "1.2",
            QNumber::Q13 => "1.3",
            QNumber::Q21 => "2.1",
            QNumber::Q22 => "2.2",
            QNumber::Q23 => "2.3",
            QNumber::Q31 => "3.1",
            QNumber::Q32 => "3.2",
            QNumber::Q33 => "3.3",
            QNumber::Q34 => "3.4",
            QNumber::Q41 => "4.1",
            QNumber::Q42 => "4.2",
            QNumber::Q43 => "4.3",
        }
    }
}
