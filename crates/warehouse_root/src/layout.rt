//! The layouts of what is stored on a device.
ghost use Rattle.std.specs.Prelude.{◌≡◌, ◌↔◌, Some};

/// A layout of the objects of a warehouse.
#[derive(Clone, Copy, PartialEq, Eq)]
pub enum Layout {
    /// Four axes: customer, supplier, part and date.
    First,
    /// The same, and ship modes as a fifth.
    Second,
}

impl Layout {
    ghost use Rattle.warehouse_root.specs.declared.layout.Layout.{Layout};
    ghost use Rattle.warehouse_root.specs.Layouts.{dimension_object_count, has_modes, layout_number, view_count};

    /// The layout of a number, 1 or 2, as it is stored.
    pub fn of_number(number: u32) -> Option<Layout>
        ensures { (layout : Layout) → (result ≡ Some layout) ↔ (number ≡ layout_number layout) }
    {
        match number {
            1 => Some(Layout::First),
            2 => Some(Layout::Second),
            _ => None,
        }
    }

    /// Its number on the device.
    pub fn number(self) -> u32
        ensures { result ≡ layout_number self }
    {
        match self {
            Layout::First => 1,
            Layout::Second => 2,
        }
    }

    /// How many views it has. They count from 0.
    pub fn views(self) -> u16
        ensures { result ≡ view_count self }
    {
        match self {
            Layout::First => 256,
            Layout::Second => 512,
        }
    }

    /// Whether ship mode is an axis.
    pub fn has_ship_modes(self) -> bool
        ensures { result ≡ has_modes self }
    {
        matches!(self, Layout::Second)
    }

    /// How many objects hold dimensions. They count from 1.
    pub fn dimensions(self) -> u32
        ensures { result ≡ dimension_object_count self }
    {
        match self {
            Layout::First => 4,
            Layout::Second => 5,
        }
    }
}
