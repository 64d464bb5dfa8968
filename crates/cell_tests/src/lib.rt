//! Tests of a cell: tables of acts and of calls and their answers, a loss of power at each write of a command, and a caller
//! that is proved by the clauses of a turn alone.
#![tactic(auto)]

#[cfg(test)]
mod acts;
pub mod callers;
#[cfg(test)]
mod calls;
#[cfg(test)]
mod cells;
#[cfg(test)]
mod commands;
#[cfg(test)]
mod histories;
#[cfg(test)]
mod losses;
#[cfg(test)]
mod ports;
#[cfg(test)]
mod rows;
#[cfg(test)]
mod words;
