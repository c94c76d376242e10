//! The table of fact rows.
ghost use Rattle.std.specs.Prelude.{◌≤◌, ◌<◌, ◌^◌};

use crate::calendar::{DAYS, key_after};
use crate::fields::write_numbers;
use crate::random::Random;
use crate::scale::Scale;
use std::io::{self, Write};

static PRIORITIES: [&str; 5] = ["1-URGENT", "2-HIGH", "3-MEDIUM", "4-NOT SPECI", "5-LOW"];

static MODES: [&str; 7] = ["AIR", "FOB", "MAIL", "RAIL", "REG AIR", "SHIP", "TRUCK"];

// An order: its number, and what all of its lines have.
#[derive(Clone, Copy)]
struct Order {
    number: u64,
    customer: u64,
    day: u64,
    priority: &'static str,
}

// The price of a line, in hundredths.
#[derive(Clone, Copy)]
struct Price {
    whole: u64,
    taxed: u64,
    revenue: u64,
    cost: u64,
}

impl Price {
    // That of so many of a part, less a discount in hundredths.
    fn of(part: u64, quantity: u64, discount: u64) -> Price
        requires part { part ≤ 2 ^ 32 }
        requires quantity { quantity ≤ 50 }
        requires discount { discount ≤ 10 }
    {
        let one = 90_000 + (part / 10) % 20_001 + 100 * (part % 1_000);
        let whole = quantity * one;
        Price {
            whole,
            taxed: whole + whole / 20,
            revenue: whole * (100 - discount) / 100,
            cost: one * 6 / 10,
        }
    }
}

/// Writes the table of fact rows: one to seven lines of each order. An order has one customer, day and priority, and is
/// committed 30 to 90 days after its day.
pub fn write_lineorders<W: Write>(
    out: &mut W,
    random: &mut Random,
    scale: Scale,
) -> io::Result<()> {
    for number in 1..=scale.orders() {
        let order = Order {
            number,
            customer: random.between(1, scale.customers()),
            day: random.between(0, DAYS - 152),
            priority: PRIORITIES[random.place(5)],
        };
        write_order(out, random, scale, order)?;
    }
    Ok(())
}

// Writes the lines of an order.
fn write_order<W: Write>(
    out: &mut W,
    random: &mut Random,
    scale: Scale,
    order: Order,
) -> io::Result<()>
    requires { order.day ≤ 2404 }
{
    for line in 1..=random.between(1, 7) {
        write_line(out, random, scale, order, line)?;
    }
    Ok(())
}

// Writes a line of an order.
fn write_line<W: Write>(
    out: &mut W,
    random: &mut Random,
    scale: Scale,
    order: Order,
    line: u64,
) -> io::Result<()>
    requires { order.day ≤ 2404 }
{
    let part = random.between(1, scale.parts());
    let supplier = random.between(1, scale.suppliers());
    let (quantity, discount) = (random.between(1, 50), random.between(0, 10));
    let tax = random.between(0, 8);
    let commit = key_after(order.day + random.between(30, 90));
    let mode = MODES[random.place(7)];
    let price = Price::of(part, quantity, discount);
    let Order {
        number,
        customer,
        day,
        priority,
    } = order;
    let date = key_after(day);
    let Price {
        whole,
        taxed,
        revenue,
        cost,
    } = price;
    write_numbers(out, &[number, line, customer, part, supplier, date])?;
    write!(out, "{priority}|0|")?;
    write_numbers(
        out,
        &[quantity, whole, taxed, discount, revenue, cost, tax, commit],
    )?;
    writeln!(out, "{mode}|")
}
