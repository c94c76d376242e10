//! How a report is written.
ghost use Rattle.std.specs.Prelude.{◌≡◌};
ghost use Rattle.report_formats.specs.Rows.{counts_averages, ending_of, format_named, is_plain, opening_of};
ghost use Rattle.report_formats.specs.Rows.{separator_of};

/// The format of a report.
#[derive(Clone, Copy, PartialEq, Eq)]
pub enum Format {
    /// Fields separated by bars, with the number of lines at the end.
    Bars,
    /// Comma-separated values by RFC 4180. ALL is an empty field, and an empty text two quotation marks.
    Csv,
    /// Fields separated by tabs. ALL is an empty field.
    Tsv,
    /// A JSON object for each line of the answer, and no header. ALL is null.
    Json,
}

/// How a report is written.
#[derive(Clone, Copy, PartialEq, Eq)]
pub struct Layout {
    pub format: Format,
    /// How many digits after the point an average has, at most 18. Without it an average is a fraction in lowest terms,
    /// and in json an object with its sum and its count.
    pub decimals: Option<u32>,
}

impl Layout {
    /// Whether averages are written as their sum and their count.
    pub(crate) fn counts_averages(self) -> bool
        ensures { result ≡ counts_averages self }
    {
        matches!(self.format, Format::Json) && self.decimals.is_none()
    }

    /// Whether the report is one with bars and with averages as fractions.
    pub(crate) fn is_plain(self) -> bool
        ensures { result ≡ is_plain self }
    {
        matches!(self.format, Format::Bars) && self.decimals.is_none()
    }
}

impl Format {
    /// The format of a name.
    pub fn named(name: &str) -> Option<Format>
        ensures { result ≡ format_named name.now }
    {
        match name {
            "bars" => Some(Format::Bars),
            "csv" => Some(Format::Csv),
            "tsv" => Some(Format::Tsv),
            "json" => Some(Format::Json),
            _ => None,
        }
    }

    /// What a line begins with.
    pub(crate) fn opening(self) -> &'static [u8]
        ensures { result.now ≡ opening_of self }
    {
        match self {
            Format::Json => b"{",
            _ => b"",
        }
    }

    /// What is between two fields of a line.
    pub(crate) fn separator(self) -> u8
        ensures { result ≡ separator_of self }
    {
        match self {
            Format::Bars => b'|',
            Format::Tsv => b'\t',
            Format::Csv | Format::Json => b',',
        }
    }

    /// What a line ends with.
    pub(crate) fn ending(self) -> &'static [u8]
        ensures { result.now ≡ ending_of self }
    {
        match self {
            Format::Csv => b"\r\n",
            Format::Json => b"}\n",
            Format::Bars | Format::Tsv => b"\n",
        }
    }
}
