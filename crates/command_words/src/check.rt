//! The command `check`.
use crate::described::Described;
use crate::words::Words;

/// The command `check`.
pub(crate) static CHECK: Described = Described {
    name: "check",
    about: "Says whether all that is stored of a warehouse is right.",
    usage: "ssbcube check DEV [--quiet]",
    help: "Each batch is read whole: its bytes have to be those of a batch, its keys have to
be known in the dimensions, and its rows have to be as many as the root says. The
totals of the root have to be those of the rows, and each stored cuboid has to be
the grouping of its batches, as 'ssbcube audit' finds.

It prints 'ok: batches N, rows N, cuboids N', or the first thing that is wrong
with status 1, such as 'batch 3: rows 5, the root says 6'. Bytes that were changed
into others that break no rule are not found.

Example:
  ssbcube check star.dev",
    required: &[Words::Device],
    optional: &[Words::Quiet],
};
