//! Cities, nations and regions.
use crate::random::Random;

/// The first nine letters of a nation, with blanks after them, its name, and its region.
#[derive(Clone, Copy)]
pub(crate) struct Nation {
    pub(crate) city: &'static str,
    pub(crate) name: &'static str,
    pub(crate) region: &'static str,
}

/// Five nations of each region.
static NATIONS: [[(&str, &str, &str); 5]; 5] = [
    [
        ("ALGERIA  ", "ALGERIA", "AFRICA"),
        ("ETHIOPIA ", "ETHIOPIA", "AFRICA"),
        ("KENYA    ", "KENYA", "AFRICA"),
        ("MOROCCO  ", "MOROCCO", "AFRICA"),
        ("MOZAMBIQU", "MOZAMBIQUE", "AFRICA"),
    ],
    [
        ("ARGENTINA", "ARGENTINA", "AMERICA"),
        ("BRAZIL   ", "BRAZIL", "AMERICA"),
        ("CANADA   ", "CANADA", "AMERICA"),
        ("PERU     ", "PERU", "AMERICA"),
        ("UNITED ST", "UNITED STATES", "AMERICA"),
    ],
    [
        ("CHINA    ", "CHINA", "ASIA"),
        ("INDIA    ", "INDIA", "ASIA"),
        ("INDONESIA", "INDONESIA", "ASIA"),
        ("JAPAN    ", "JAPAN", "ASIA"),
        ("VIETNAM  ", "VIETNAM", "ASIA"),
    ],
    [
        ("FRANCE   ", "FRANCE", "EUROPE"),
        ("GERMANY  ", "GERMANY", "EUROPE"),
        ("ROMANIA  ", "ROMANIA", "EUROPE"),
        ("RUSSIA   ", "RUSSIA", "EUROPE"),
        ("UNITED KI", "UNITED KINGDOM", "EUROPE"),
    ],
    [
        ("EGYPT    ", "EGYPT", "MIDDLE EAST"),
        ("IRAN     ", "IRAN", "MIDDLE EAST"),
        ("IRAQ     ", "IRAQ", "MIDDLE EAST"),
        ("JORDAN   ", "JORDAN", "MIDDLE EAST"),
        ("SAUDI ARA", "SAUDI ARABIA", "MIDDLE EAST"),
    ],
];

/// A nation of a region, each as likely as another.
pub(crate) fn any_nation(random: &mut Random) -> Nation {
    let region = random.place(5);
    let nation = random.place(5);
    let (city, name, region) = NATIONS[region][nation];
    Nation { city, name, region }
}
