//! The command `add`.
use crate::described::Described;
use crate::word::{Kind, Value, Word};
use crate::words::Words;

/// The command `add`.
pub(crate) static ADD: Described = Described {
    name: "add",
    about: "Adds rows to the dimension tables of a warehouse.",
    usage: "ssbcube add DEV --number N [--customer FILE] [--supplier FILE]
                   [--part FILE] [--date FILE]",
    help: "Additions are numbered from 1. The rows of a table follow those that the
warehouse has, and all have to keep the rules of 'ssbcube create': no key twice,
and each member under one upper member. An addition is made whole or not at all.

It prints 'addition 1 rows 5', how many rows there are in all files, and
'additions 1', how many additions the warehouse has, once the rows are durable:
they survive a crash at any point. Where an addition of the number is there, the
rows are compared: 'addition 1 skipped' means that each is in the warehouse with
these texts; otherwise the addition is refused. So after a crash the same command
is given again; 'ssbcube status DEV' prints how many additions there are.

Batches, stored cuboids and the answers over them stay as they are.

Examples:
  ssbcube add star.dev --number 1 --customer new_customer.tbl
  ssbcube add star.dev --number 2 --part new_part.tbl --date new_date.tbl",
    required: &[
        Words::Device,
        Words::Own(&[Word {
            name: "number",
            value: "N",
            help: "The number of the addition, 1 or more",
            kind: Kind::Option(Value::Number(1, u32::MAX as u64)),
        }]),
    ],
    optional: &[Words::Tables],
};
