// Trials of the strip, the lines and the log: moves written by hand, and many moves beside a plain list.
#![tactic(auto)]

#[cfg(test)]
mod full;
#[cfg(test)]
mod lines;
#[cfg(test)]
mod logs;
#[cfg(test)]
mod lowest;
#[cfg(test)]
mod mixed;
#[cfg(test)]
mod rounds;
#[cfg(test)]
mod sample;
#[cfg(test)]
mod whole;
