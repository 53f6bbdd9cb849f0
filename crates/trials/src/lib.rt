// Trials of intake and bind: decks written by hand, each with what the rules say of it.
#![tactic(auto)]

#[cfg(test)]
mod accepted;
#[cfg(test)]
mod book;
#[cfg(test)]
mod bound;
#[cfg(test)]
mod build;
#[cfg(test)]
mod case;
#[cfg(test)]
mod entries;
#[cfg(test)]
mod faults;
#[cfg(test)]
mod fronts;
#[cfg(test)]
mod limits;
#[cfg(test)]
mod long;
#[cfg(test)]
mod names;
#[cfg(test)]
mod samples;
#[cfg(test)]
mod tables;
