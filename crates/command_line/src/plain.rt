//! The text of a fault of the words.
use crate::fault::WordsFault;
use std::alloc::{AllocError, Global};

/// What is wrong with the words, or what they ask for, in lines that each end with LF. Of the text of `clap` it leaves out the tip
/// to give an option or a number as the name of a file, and it says in plain words which numbers are allowed.
///
/// # Errors
/// An allocation failed.
pub fn text_of(alloc: Global, fault: &WordsFault) -> Result<String, AllocError> {
    let message = format!(in alloc; "{fault}")?;
    let mut text = String::new(alloc);
    let mut is_after_blank = false;
    for line in message.as_str().lines() {
        let is_left_out = is_misleading(line) || (line.is_empty() && is_after_blank);
        if !is_left_out {
            is_after_blank = line.is_empty();
            add_plain(line, &mut text)?;
        }
    }
    Ok(text)
}

/// Whether the line is the tip to write an option or a number after `--`, where only names of files may be.
fn is_misleading(line: &str) -> bool {
    match line.strip_prefix("  tip: to pass '-") {
        Some(rest) => {
            let word = rest.split_once('\'').map_or(rest, |(word, _)| word);
            word.starts_with('-') || word.bytes().all(|byte| byte.is_ascii_digit())
        }
        None => false,
    }
}

/// Adds the line in plain words, with LF.
fn add_plain(line: &str, text: &mut String) -> Result<(), AllocError> {
    if let Some(before) = line.strip_suffix("invalid digit found in string") {
        let example = if before.contains("--cert-version") {
            ", such as 2"
        } else if before.contains("--seconds") {
            " of seconds, such as 10"
        } else {
            ", such as 1000000"
        };
        return write!(text, "{before}expected a whole number{example}\n");
    }
    if let Some(before) = line.strip_suffix("number too large to fit in target type") {
        return write!(text, "{before}the number is too large\n");
    }
    if let Some((before, range)) = line.split_once(" is not in ") {
        if let Some((least, most)) = range.split_once("..=") {
            return write!(text, "{before} is not from {least} to {most}\n");
        }
    }
    write!(text, "{line}\n")
}
