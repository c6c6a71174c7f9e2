//! Tests of the parts of a network, of their parcels and of the shares that run them.
#![tactic(auto)]

#[cfg(test)]
mod fake_part;
#[cfg(test)]
mod lines;
#[cfg(test)]
mod orders;
#[cfg(test)]
mod parcels;
#[cfg(test)]
mod repeaters;
#[cfg(test)]
mod rooms;
#[cfg(test)]
mod shares;
