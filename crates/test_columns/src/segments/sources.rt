//! Batches that are read from a source.

use crate::segments::projected::repeated;
use column_segment::decode_from;
use cube_model::Fault;
use std::alloc::Global;
use std::test::Fail;
use wire::Source;

// Bytes that are at every id, if there are any, of which so many parts can be read before a read is refused, and how
// many bytes were read.
#[derive(Drop)]
pub(crate) struct Refusing<'a> {
    pub(crate) bytes: Option<&'a [u8]>,
    pub(crate) left: usize,
    pub(crate) given: usize,
}

impl<'a> Source for Refusing<'a> {
    ghost use Rattle.std.specs.Prelude.{length, option_map};

    ghost totals = { λ s id. option_map (λ bytes. length bytes.now) s.bytes };

    ghost texts = { λ s id. option_map (λ bytes. bytes.now) s.bytes };

    ghost keeps_word = { λ s. Unit {0} };

    ghost always_keeps = { Unit {0} };

    ghost reads = { λ old new. Unit {0} };

    ghost fails = { λ fault old new. Unit {0} };

    fn total(&self, id: u32) -> Option<u64> {
        let _ = id;
        match self.bytes {
            None => None,
            Some(bytes) => Some(bytes.len() as u64),
        }
    }

    fn read_part(&mut self, id: u32, at: u64, to: &mut [u8]) -> Result<(), Fault> {
        let _ = id;
        let Some(bytes) = self.bytes else {
            return Err(Fault::Failed);
        };
        if self.left == 0 {
            return Err(Fault::Device);
        }
        self.left -= 1;
        let at = at as usize;
        let Some(end) = at.checked_add(to.len()) else {
            return Err(Fault::Failed);
        };
        let Some(part) = bytes.get(at..end) else {
            return Err(Fault::Failed);
        };
        to.copy_from_slice(part);
        self.given = self.given.saturating_add(to.len());
        Ok(())
    }

    ghost none_read = { λ source. tt };

    ghost reads_on = { λ old mid new first second. tt };

    ghost fails_later = { λ fault old mid new first second. tt };
}

// Why a source of these bytes has no batch, if it has none, where so many parts can be read.
fn refusal_after(alloc: Global, bytes: &[u8], left: usize) -> Option<Fault> {
    let mut source = Refusing {
        bytes: Some(bytes),
        left,
        given: 0,
    };
    decode_from(alloc, &mut source, 9).err()
}

// How many parts can be read, and why 2,100 rows are refused then.
static READS: [(usize, Option<Fault>); 4] = [
    (0, Some(Fault::Device)),
    (1, Some(Fault::Device)),
    (2, Some(Fault::Device)),
    (3, None),
];

// 2,100 rows of 71 bytes and their texts are three reads of 65,536 bytes.
#[test]
fn each_read_is_refused_in_turn(rt: HostRuntime) -> Result<(), Fail> {
    let bytes = repeated(rt.alloc(), 700)?;
    for (left, refusal) in &READS {
        assert!(rt;
            refusal_after(rt.alloc(), &bytes, *left) == *refusal,
            "{left} reads"
        );
    }
    Ok(())
}
