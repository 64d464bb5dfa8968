//! Tests that run over every store of a card's memory: the one in memory, and those on a device, in both layouts.
#![tactic(auto)]

#[cfg(test)]
mod bench;
#[cfg(test)]
mod cards;
#[cfg(test)]
mod equal;
#[cfg(test)]
mod images;
#[cfg(test)]
mod layouts;
#[cfg(test)]
mod left;
#[cfg(test)]
mod looking;
#[cfg(test)]
mod losing;
#[cfg(test)]
mod memory;
#[cfg(test)]
mod migrating;
#[cfg(test)]
mod moving;
#[cfg(test)]
mod random;
#[cfg(test)]
mod rows;
#[cfg(test)]
mod untold;
