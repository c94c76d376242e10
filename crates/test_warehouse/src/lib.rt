//! Tests of warehouses: the root, creation and opening, runs of commands, plans, a submit, an addition and a move to
//! the second layout that crash at each device call, the bytes on the device, images that break a rule, memory that is
//! refused, warehouses of the greatest size, and stored cuboids.
#![tactic(auto)]

#[cfg(test)]
mod additions;
#[cfg(test)]
mod bytes;
#[cfg(test)]
mod crashes;
#[cfg(test)]
mod example;
#[cfg(test)]
mod formatting;
#[cfg(test)]
mod hostile;
#[cfg(test)]
mod limits;
#[cfg(test)]
mod memory;
#[cfg(test)]
mod planned;
#[cfg(test)]
mod roots;
#[cfg(test)]
mod scripts;
#[cfg(test)]
mod sparse;
#[cfg(test)]
mod steps;
#[cfg(test)]
mod upkeep;
