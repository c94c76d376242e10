//! The names of views.
use cube_model::Fault;
use lattice::{View, ViewName};
use std::alloc::Global;

/// Numbers of views, whether there are five axes, and how the views print.
static NAMES: [(u16, bool, &str); 24] = [
    (0, false, "view 0 city|city|brand1|day"),
    (0, true, "view 0 city|city|brand1|day|ALL"),
    (51, false, "view 51 city|ALL|brand1|ALL"),
    (51, true, "view 51 city|ALL|brand1|ALL|ALL"),
    (59, false, "view 59 city|ALL|mfgr|ALL"),
    (59, true, "view 59 city|ALL|mfgr|ALL|ALL"),
    (86, false, "view 86 nation|nation|category|year"),
    (86, true, "view 86 nation|nation|category|year|ALL"),
    (190, false, "view 190 region|ALL|ALL|year"),
    (190, true, "view 190 region|ALL|ALL|year|ALL"),
    (203, false, "view 203 ALL|city|mfgr|ALL"),
    (203, true, "view 203 ALL|city|mfgr|ALL|ALL"),
    (213, false, "view 213 ALL|nation|category|month"),
    (213, true, "view 213 ALL|nation|category|month|ALL"),
    (243, false, "view 243 ALL|ALL|brand1|ALL"),
    (243, true, "view 243 ALL|ALL|brand1|ALL|ALL"),
    (248, false, "view 248 ALL|ALL|mfgr|day"),
    (248, true, "view 248 ALL|ALL|mfgr|day|ALL"),
    (255, false, "view 255 ALL|ALL|ALL|ALL"),
    (255, true, "view 255 ALL|ALL|ALL|ALL|ALL"),
    (507, false, "view 507 ALL|ALL|mfgr|ALL"),
    (507, true, "view 507 ALL|ALL|mfgr|ALL|shipmode"),
    (511, false, "view 511 ALL|ALL|ALL|ALL"),
    (511, true, "view 511 ALL|ALL|ALL|ALL|shipmode"),
];

// Whether the view of a number prints so.
fn is_printed(alloc: Global, index: u16, ship_modes: bool, text: &str) -> Result<bool, Fault> {
    let Some(view) = View::new(index) else {
        return Ok(false);
    };
    let printed = ViewName { view, ship_modes }.to_string(alloc)?;
    Ok(printed.as_str() == text)
}

#[test]
fn views_print_their_levels(rt: HostRuntime) {
    for (index, ship_modes, text) in &NAMES {
        assert!(rt;
            is_printed(rt.alloc(), *index, *ship_modes, *text) == Ok(true),
            "{text}"
        );
    }
}
