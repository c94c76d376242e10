//! The command `self-test`.
use crate::described::Described;
use crate::word::{Kind, Value, Word};
use crate::words::Words;

/// The command `self-test`.
pub(crate) static SELF_TEST: Described = Described {
    name: "self-test",
    about: "Tests this program by crashes of a warehouse on a disk in memory.",
    usage: "ssbcube self-test [--seconds N]",
    help: "It makes a warehouse on a disk in memory, adds three batches, stores cuboids, brings
them up to date and asks some queries. It stops that at each call of the disk, in
four ways: of what was not synced the disk has kept nothing, all, or every other
sector. Then it stops it at random calls, with random sectors kept, until the
seconds have passed.

After each stop it opens what the disk has kept. The batches have to be those that
were acknowledged, or these and the one that was being added; all that is stored
has to be right, as 'ssbcube check' finds; and the thirteen queries have to answer
as one pass over the rows of these batches does.

It prints 'ok: N stops opened', or the first stop after which something was wrong,
and what, with status 1. With --seconds 0 it makes no random stop. It reads no file
and writes none.

Example:
  ssbcube self-test --seconds 60",
    required: &[],
    optional: &[Words::Own(&[Word {
        name: "seconds",
        value: "N",
        help: "Random stops until N seconds have passed; 10 if left out",
        kind: Kind::Option(Value::Number(0, u32::MAX as u64)),
    }])],
};
