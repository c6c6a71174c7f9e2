//! Tests of the devices and of what they hear and send: symbols, frames, cables, senders, receivers, repeaters.
#![tactic(auto)]

#[cfg(test)]
mod cables;
#[cfg(test)]
mod draws;
#[cfg(test)]
mod frames;
#[cfg(test)]
mod guards;
#[cfg(test)]
mod parameters;
#[cfg(test)]
mod receivers;
#[cfg(test)]
mod repeaters;
#[cfg(test)]
mod senders;
#[cfg(test)]
mod symbols;
#[cfg(test)]
mod texts;
