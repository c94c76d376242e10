//! The command `copy`.
use crate::described::Described;
use crate::word::{Kind, Value, Word};
use crate::words::Words;

/// The command `copy`.
pub(crate) static COPY: Described = Described {
    name: "copy",
    about: "Makes a warehouse of the same rows in another file.",
    usage: "ssbcube copy DEV NEW [--sectors N] [--quiet]",
    help: "NEW gets the dimension rows and the batches of DEV, and cuboids of the same views,
which hold all batches. It has as many sectors as DEV, or N: this is the way to a
larger file, to a smaller one, and to a backup. Sizes are those of 'ssbcube
create'. The number of additions is not kept: NEW begins with all dimension rows.

It prints 'created N sectors' and 'batches N' at the end. Where it is refused,
NEW is not there. Where it is interrupted, NEW is a warehouse of the first
batches: remove it and begin again. DEV may be read by others meanwhile, and
nothing is written to it.

Examples:
  ssbcube copy star.dev larger.dev --sectors 2G
  ssbcube copy star.dev backup.dev",
    required: &[
        Words::Device,
        Words::Own(&[Word {
            name: "new",
            value: "NEW",
            help: "The file of the new warehouse",
            kind: Kind::Plain(Value::Text),
        }]),
    ],
    optional: &[
        Words::Own(&[Word {
            name: "sectors",
            value: "N",
            help: "How many sectors of 512 bytes, or a size such as 400M",
            kind: Kind::Option(Value::Text),
        }]),
        Words::Quiet,
    ],
};
