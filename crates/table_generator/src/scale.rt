//! How large the tables are.
ghost use Rattle.std.specs.Prelude.{◌≡◌, ◌≤◌, ◌<◌, ◌^◌, IfSome};
ghost use Rattle.table_generator.specs.Scale.{customers_of, doublings, orders_of, part_count, suppliers_of};

use std::marker::Model;

/// A scale in hundredths of scale 1: from 0.01 to 100.
#[derive(Clone, Copy, PartialEq, Eq)]
pub struct Scale {
    hundredths: u32,
}

impl Model for Scale {
    ghost use Rattle.std.specs.Prelude.{ℕ, ◌≤◌};

    ghost Value = { ℕ };

    ghost view = { λ scale. scale.hundredths };

    ghost invariant = { λ scale. (1 ≤ scale.hundredths) × (scale.hundredths ≤ 10000) };

    ghost inverse = { λ hundredths. record { hundredths = hundredths } };
}

impl Scale {
    /// So many hundredths of scale 1, if that is 0.01 to 100.
    pub fn of_hundredths(hundredths: u32) -> Option<Scale>
        ensures { IfSome result (λ scale. scale ≡ hundredths) }
    {
        if (1..=10_000).contains(&hundredths) {
            Some(Scale { hundredths })
        } else {
            None
        }
    }

    /// The scale that a text gives: a number from 0.01 to 100 with at most two digits after the point, such as `1`,
    /// `0.1` or `0.25`.
    pub fn of_text(text: &str) -> Option<Scale> {
        let (whole, part) = text.split_once('.').unwrap_or((text, "00"));
        let units = number(whole)?;
        let rest = match part.len() {
            1 => number(part)? * 10,
            2 => number(part)?,
            _ => return None,
        };
        if units > 100 {
            return None;
        }
        Scale::of_hundredths(units * 100 + rest)
    }

    /// How many customers there are.
    pub fn customers(self) -> u64
        ensures value { result ≡ customers_of self }
        ensures some { 1 ≤ result }
        ensures few { result ≤ 2 ^ 32 }
    {
        u64::from(self.hundredths) * 300
    }

    /// How many suppliers.
    pub fn suppliers(self) -> u64
        ensures value { result ≡ suppliers_of self }
        ensures some { 1 ≤ result }
        ensures few { result ≤ 2 ^ 32 }
    {
        u64::from(self.hundredths) * 20
    }

    /// How many parts.
    pub fn parts(self) -> u64
        ensures value { result ≡ part_count self }
        ensures some { 1 ≤ result }
        ensures few { result ≤ 2 ^ 32 }
    {
        if self.hundredths < 100 {
            return u64::from(self.hundredths) * 2_000;
        }
        200_000 * (1 + u64::from(doublings(self.hundredths / 100)))
    }

    /// How many orders. Each has one to seven lines.
    pub fn orders(self) -> u64
        ensures value { result ≡ orders_of self }
        ensures few { result ≤ 2 ^ 32 }
    {
        u64::from(self.hundredths) * 15_000
    }
}

// A number of at most three digits.
fn number(text: &str) -> Option<u32>
    ensures { IfSome result (λ number. number < 1000) }
{
    if text.is_empty() || text.len() > 3 || !text.bytes().all(|byte| byte.is_ascii_digit()) {
        return None;
    }
    let number = text.parse::<u32>().ok()?;
    if number < 1_000 { Some(number) } else { None }
}

// How often 1 is doubled without passing a number.
fn doublings(number: u32) -> u32
    requires { number < 128 }
    ensures value { result ≡ doublings number }
    ensures few { result ≤ 6 }
{
    match number {
        0..=1 => 0,
        2..=3 => 1,
        4..=7 => 2,
        8..=15 => 3,
        16..=31 => 4,
        32..=63 => 5,
        _ => 6,
    }
}
