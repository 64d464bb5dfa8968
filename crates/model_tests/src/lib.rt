//! Tests of what a card is: its objects, references and names, what a card begins with, histories, and answers.
#![tactic(auto)]

#[cfg(test)]
mod answers;
#[cfg(test)]
mod histories;
#[cfg(test)]
mod kinds;
#[cfg(test)]
mod starts;
