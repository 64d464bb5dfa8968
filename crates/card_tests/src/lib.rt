//! Tests of the card over the store in memory: the table of answers, its commands, room for objects, losses of power,
//! what a history says of a connection and of a counter, and exchanges on its connections.
#![tactic(auto)]

#[cfg(test)]
mod commands;
#[cfg(test)]
mod exchanges;
#[cfg(test)]
mod histories;
#[cfg(test)]
mod losses;
#[cfg(test)]
mod room;
#[cfg(test)]
mod table;
