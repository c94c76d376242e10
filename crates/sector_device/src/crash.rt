// Which candidate of each sector a crash leaves. Each step goes over the log or the sectors once.
ghost use Rattle.std.specs.Prelude.{ℕ, ◌≡◌, ◌<◌, ◌≤◌, ◌+◌, ◌-◌, ◌%◌, ◌^◌, reverse, length, slice_index, slice_index_or};
ghost use Rattle.std.specs.Prelude.{[]};
ghost use Rattle.sector_device.specs.Memory.{content, replaced, candidates, MayHold};
ghost use Rattle.sector_device.specs.Picks.{several_below, named};

use crate::change::Change;

/// Each sector takes the candidate that the picks name, by undoing writes. `room` has a number for each sector.
pub(crate) fn take_picks(
    sectors: &mut [[u8; 512]],
    log: &[Change],
    room: &mut [usize],
    picks: &[u32],
)
    requires { length room.old ≡ length sectors.old }
    ensures image { (i : ℕ) → MayHold sectors.old (reverse log.now) i (content sectors.new i) }
    ensures named { (i : ℕ) → i < length sectors.old
        → content sectors.new i ≡ named (λ k. reverse (candidates sectors.old (reverse log.now) k)) picks.now i }
{
    count_replaced(room, log);
    count_undone(room, picks);
    undo_writes(sectors, room, log);
}

// How many contents of each sector were replaced since the last sync.
fn count_replaced(counts: &mut [usize], log: &[Change])
    ensures { (i : ℕ) → i < length counts.old → slice_index counts.new i ≡ length (replaced (reverse log.now) i) }
{
    counts.fill(0);
    let mut rest = log;
    while let Some((last, earlier)) = rest.split_last() {
        match last {
            Change::Synced => return,
            Change::Replaced(at, _) => {
                let at = *at as usize;
                if at < counts.len() {
                    counts[at] += 1;
                }
            }
        }
        rest = earlier;
    }
}

// From how many older candidates each sector has to how many of its writes are undone.
fn count_undone(counts: &mut [usize], picks: &[u32])
    requires { (i : ℕ) → i < length counts.old → slice_index counts.old i < 2 ^ 63 }
    ensures { (i : ℕ) → i < length counts.old
        → slice_index counts.new i ≡ slice_index counts.old i - slice_index picks.now
        (several_below (λ k. slice_index counts.old k + 1) i) % (slice_index counts.old i + 1) }
{
    let mut several: usize = 0;
    for i in 0..counts.len() {
        let older = counts[i];
        if older > 0 {
            let pick = match picks.get(several) {
                Some(pick) => *pick as usize,
                None => 0,
            };
            counts[i] = older - pick % (older + 1);
            several += 1;
        }
    }
}

// Undoes so many of the last writes of each sector.
fn undo_writes(sectors: &mut [[u8; 512]], left: &mut [usize], log: &[Change])
    requires room { length left.old ≡ length sectors.old }
    requires enough { (i : ℕ) → i < length left.old → slice_index left.old i ≤ length (replaced (reverse log.now) i) }
    ensures { (i : ℕ) → i < length sectors.old
        → content sectors.new i ≡ slice_index_or (candidates sectors.old (reverse log.now) i) (slice_index left.old i)
        [] }
{
    let mut rest = log;
    while let Some((last, earlier)) = rest.split_last() {
        match last {
            Change::Synced => return,
            Change::Replaced(at, old) => {
                let at = *at as usize;
                if at < left.len() && left[at] > 0 {
                    left[at] -= 1;
                    sectors[at] = *old;
                }
            }
        }
        rest = earlier;
    }
}
