//! The command `migrate`.
use crate::described::Described;
use crate::words::Words;

/// The command `migrate`.
pub(crate) static MIGRATE: Described = Described {
    name: "migrate",
    about: "Moves a warehouse to layout 2.",
    usage: "ssbcube migrate DEV",
    help: "The ship modes of all batches are read, each is stored once, and the layout
becomes 2, in one commit, which a crash leaves done or not begun. Batches and
cuboids stay as they are. 'layout 2' is printed once that is durable, and at once
where the layout is 2 already. There is no way back.

It is refused where a ship mode is ALL, or where there are more than 65,535
different ones, with the batch and the row: then the layout is still 1.

Example:
  ssbcube migrate star.dev",
    required: &[Words::Device],
    optional: &[],
};
