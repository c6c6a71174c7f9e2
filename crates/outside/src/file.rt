//! A file as contracts see it.

use lists::{List, Text};

/// A file by its name.
#[derive(Drop)]
pub struct File {
    pub name: Text,
    pub octets: List<u8>,
}
