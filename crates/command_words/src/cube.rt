//! The command `cube`.
use crate::described::Described;
use crate::words::{CUBE_HELP, Words};

/// The command `cube`.
pub(crate) static CUBE: Described = Described {
    name: "cube",
    about: "Answers an ad-hoc query over a warehouse.",
    usage: "ssbcube cube DEV [--as-of N] [--set SET] [--by A,A] --agg G,G
                    [--order COLUMN[:desc]] [--limit N]
                    [--format FORMAT] [--decimals N]
                    [--output FILE [--overwrite]] [--timing] [CONDITION]...
       ssbcube cube DEV --partial K/N ...",
    help: CUBE_HELP,
    required: &[Words::Device],
    optional: &[
        Words::AsOf,
        Words::Layout,
        Words::Order,
        Words::Partial,
        Words::Cube,
        Words::Conditions,
        Words::Timing,
    ],
};
