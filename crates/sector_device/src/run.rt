// Neighbouring sectors as bytes, end to end.
ghost use Rattle.std.specs.Prelude.{◌≡◌, ◌*◌, ◌/◌, ◌<◌, ℕ, length, take, drop};

/// The k-th sector.
pub(crate) fn sector_at(bytes: &[u8], k: usize) -> &[u8; 512]
    requires { k < length bytes.now / 512 }
    ensures { result.now ≡ take 512 (drop (k * 512) bytes.now) }
{
    &bytes.as_chunks::<512>().0[k]
}

/// Puts the k-th sector in its place.
pub(crate) fn put_sector(bytes: &mut [u8], k: usize, sector: &[u8; 512])
    requires { k < length bytes.old / 512 }
    ensures here { take 512 (drop (k * 512) bytes.new) ≡ sector.now }
    ensures before { (j : ℕ) → j < k → take 512 (drop (j * 512) bytes.new) ≡ take 512 (drop (j * 512) bytes.old) }
{
    let at = k * 512;
    bytes[at..at + 512].copy_from_slice(sector);
}
