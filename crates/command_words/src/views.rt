//! The command `views`.
use crate::described::Described;
use crate::word::{Kind, Word};
use crate::words::Words;

/// The command `views`.
pub(crate) static VIEWS: Described = Described {
    name: "views",
    about: "Lists the cuboids that a warehouse stores, or sets their views.",
    usage: "ssbcube views DEV [VIEW]...",
    help: "A VIEW is its number, 0 to 511, or one level each of customer, supplier, part and
date, separated by commas, such as nation,nation,ALL,year. Where it has ALL the
view does not group by that dimension. In layout 2 a fifth level may follow, that
of ship mode; the views from 256 on group by it, and layout 1 does not have them.

Levels, the finest first:
  customer  city nation region ALL
  supplier  city nation region ALL
  part      brand1 category mfgr ALL
  date      day month year ALL
  shipmode  shipmode ALL

Given some views, at most 16, it stores their cuboids and no others, in one
commit. A view that is stored already keeps its cells, a new one is empty until
the next upkeep, and all others are dropped.

It prints a line for each stored cuboid, by ascending number, such as
'view 59 city|ALL|mfgr|ALL members 4 mark 1 cells 2', in layout 2 with a fifth
part: members is the product of the numbers of members of its levels, which is
the most cells that it can have; it holds the first batches up to its mark.

Examples:
  ssbcube views star.dev
  ssbcube views star.dev nation,nation,ALL,year 248
  ssbcube upkeep star.dev",
    required: &[Words::Device],
    optional: &[Words::Own(&[Word {
        name: "view",
        value: "VIEW",
        help: "A view to store, such as 59 or nation,nation,ALL,year",
        kind: Kind::Rest,
    }])],
};
