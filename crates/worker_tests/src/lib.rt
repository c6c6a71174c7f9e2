//! Tests that start threads: mailboxes, how parts are dealt, and whole runs by windows.
#![tactic(auto)]

#[cfg(test)]
mod deals;
#[cfg(test)]
mod entries;
#[cfg(test)]
mod mailboxes;
#[cfg(test)]
mod runs;
#[cfg(test)]
mod turnstile;
