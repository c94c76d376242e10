//! The attributes above another one.
ghost use Rattle.std.specs.Prelude.{◌≡◌};
ghost use Rattle.table_texts.specs.Members.{uppers_of};
ghost use Rattle.table_texts.specs.Parts.{listed};

use cube_model::Attr;

/// The attributes of the levels above that of another one, the next one first.
#[derive(Clone, Copy)]
pub(crate) enum Uppers {
    Nothing,
    One(Attr),
    Two(Attr, Attr),
}

/// The attributes above one.
pub(crate) fn uppers_of(attr: Attr) -> Uppers
    ensures { listed result ≡ uppers_of attr }
{
    match attr {
        Attr::CustomerCity => Uppers::Two(Attr::CustomerNation, Attr::CustomerRegion),
        Attr::CustomerNation => Uppers::One(Attr::CustomerRegion),
        Attr::SupplierCity => Uppers::Two(Attr::SupplierNation, Attr::SupplierRegion),
        Attr::SupplierNation => Uppers::One(Attr::SupplierRegion),
        Attr::PartBrand1 => Uppers::Two(Attr::PartCategory, Attr::PartMfgr),
        Attr::PartCategory => Uppers::One(Attr::PartMfgr),
        Attr::DateKey => Uppers::Two(Attr::DateYearmonthnum, Attr::DateYear),
        Attr::DateYearmonthnum => Uppers::One(Attr::DateYear),
        Attr::CustomerRegion
        | Attr::SupplierRegion
        | Attr::PartMfgr
        | Attr::DateYear
        | Attr::DateYearmonth
        | Attr::DateWeeknuminyear => Uppers::Nothing,
    }
}
