//! Tests of scenes that are run over devices in memory: by the scheduled run, and by a player over a card whose objects
//! stand in twin records.
#![tactic(auto)]

#[cfg(test)]
mod card;
#[cfg(test)]
mod cells;
#[cfg(test)]
mod devices;
#[cfg(test)]
mod losses;
#[cfg(test)]
mod lost;
#[cfg(test)]
mod rows;
#[cfg(test)]
mod runs;
#[cfg(test)]
mod scheduled;
#[cfg(test)]
mod schedules;
#[cfg(test)]
mod story;
#[cfg(test)]
mod twins;
#[cfg(test)]
mod words;
