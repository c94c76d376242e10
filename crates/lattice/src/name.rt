//! How a view is printed.
ghost use Rattle.std.specs.Prelude.{◌≡◌, Some};
ghost use Rattle.lattice.specs.Names.{fifth_part, view_text};

use crate::view::View;
use cube_model::Axis;
use std::fmt;

/// A view as it is printed, such as `view 59 city|ALL|mfgr|ALL`.
///
/// In the lattice with ship mode it has a fifth part, `shipmode` or `ALL`.
#[derive(Clone, Copy, PartialEq, Eq)]
pub struct ViewName {
    pub view: View,
    /// Whether the lattice has ship mode as an axis.
    pub ship_modes: bool,
}

impl fmt::Display for ViewName {
    ghost output = { λ name. Some (view_text name.ship_modes name.view) };

    fn fmt<W: fmt::Write>(&self, f: &mut fmt::Formatter<W>) -> fmt::Result {
        let view = self.view;
        let index = view.index();
        let customer = view.customer.name(Axis::Customer);
        let supplier = view.supplier.name(Axis::Supplier);
        let part = view.part.name(Axis::Part);
        let date = view.date.name(Axis::Date);
        let fifth = fifth_part(self.ship_modes, view);
        write!(f, "view {index} {customer}|{supplier}|{part}|{date}{fifth}")
    }
}

// The fifth part, with its bar, in the lattice that has it.
fn fifth_part(ship_modes: bool, view: View) -> &'static str
    ensures { result.now ≡ fifth_part ship_modes view }
{
    match (ship_modes, view.ship_mode) {
        (true, true) => "|shipmode",
        (true, false) => "|ALL",
        (false, _) => "",
    }
}
