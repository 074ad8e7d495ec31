//! Bytes for which a case is run one by one.
use crate::section::{Escapes, Section};
use std::alloc::{AllocError, Global};

/// The section `each` of a case, if it has one.
fn each_section(text: &str) -> Option<Section<'_>> {
    for text in text.split("\n--- ").skip(1) {
        let section = Section::of(text, Escapes::default());
        if section.name == "each" {
            return Some(section);
        }
    }
    None
}

/// The bytes listed in the case's section `each`; `None` if it has no such section.
pub fn listed_bytes(alloc: Global, text: &str) -> Result<Option<Vec<u8>>, AllocError> {
    match each_section(text) {
        Some(section) => Ok(Some(section.bytes(alloc)?)),
        None => Ok(None),
    }
}
