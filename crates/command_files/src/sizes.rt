//! The size of a warehouse in the words of its user.

/// The units of a size, in sectors: 1,024 bytes, and these times 1,024 and times 1,048,576.
const UNITS: [(char, u64); 3] = [('K', 2), ('M', 2_048), ('G', 2_097_152)];

/// The sectors that a word asks for: so many of them, or a size such as `512M`. Nothing where it is neither, and above
/// the greatest `u32`.
pub fn sectors_in(word: &str) -> Option<u32> {
    for (unit, sectors) in UNITS {
        if let Some(count) = word.strip_suffix(unit) {
            return product(count, sectors);
        }
    }
    product(word, 1)
}

fn product(count: &str, sectors: u64) -> Option<u32> {
    let count = count.parse::<u64>().ok()?;
    u32::try_from(count.checked_mul(sectors)?).ok()
}
