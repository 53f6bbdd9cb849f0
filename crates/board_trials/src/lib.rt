// Trials of boards and layers: decks written by hand, each with what the rules keep of a list, and why.
#![tactic(auto)]

#[cfg(test)]
mod book;
#[cfg(test)]
mod case;
#[cfg(test)]
mod decks;
#[cfg(test)]
mod layered;
#[cfg(test)]
mod piles;
#[cfg(test)]
mod quotas;
#[cfg(test)]
mod refused;
#[cfg(test)]
mod seated;
#[cfg(test)]
mod shortlists;
