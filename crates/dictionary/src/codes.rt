//! The check of a column of codes.
ghost use Rattle.std.specs.Prelude.{◌≡◌, ◌↔◌, IsTrue, map, nat_lt};
ghost use Rattle.std.specs.Int.{from_le_bytes, w16};
ghost use Rattle.std.specs.List.{list_all};
ghost use Rattle.dictionary.specs.Columns.{AreCodes};

/// Whether codes are in the order of their first use, each below the count, and every one below it is used. Two bytes
/// are a code, the lower one first.
pub fn are_codes(codes: &[[u8; 2]], count: u32) -> bool
    ensures { IsTrue result ↔ AreCodes count (map (from_le_bytes w16) codes.now) }
{
    let mut next = 0;
    for (i, bytes) in codes.iter().enumerate() {
        if next == count {
            return are_below(codes.split_at(i).1, count);
        }
        let code = u32::from(u16::from_le_bytes(*bytes));
        if code > next {
            return false;
        }
        if code == next {
            next += 1;
        }
    }
    next == count
}

// Whether each code is below a count. The loop never ends early, so that it works on many codes at once.
fn are_below(codes: &[[u8; 2]], count: u32) -> bool
    ensures { result ≡ list_all (λ bytes. nat_lt (from_le_bytes w16 bytes) count) codes.now }
{
    let mut fine = true;
    for bytes in codes {
        fine = fine & (u32::from(u16::from_le_bytes(*bytes)) < count);
    }
    fine
}
