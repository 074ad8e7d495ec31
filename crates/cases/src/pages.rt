//! Compares the completions and the manual page with the program's help: each must mention every command and option that the help
//! lists.
use crate::{Compared, Tally};
use devices::Memory;
use std::alloc::{AllocError, Global};
use std::{fs, io};
use test_support::Table;

/// A file that documents the commands, and its conventions.
#[derive(Clone, Copy)]
struct Page {
    name: &'static str,
    // What comes before and after a command's name where its part begins, and what ends the part.
    before: &'static str,
    following: &'static str,
    ends: &'static str,
    // What comes before an option's name.
    dashes: &'static str,
}

const BASH: Page = Page {
    name: "completions/optplan.bash",
    before: "\n        ",
    following: ") ",
    ends: ";;",
    dashes: "--",
};

const ZSH: Page = Page {
    name: "completions/_optplan",
    before: "\n        ",
    following: ")\n",
    ends: ";;",
    dashes: "--",
};

const FISH: Page = Page {
    name: "completions/optplan.fish",
    before: "'__fish_seen_subcommand_from ",
    following: "'",
    ends: "\n\n",
    dashes: "-l ",
};

const MANUAL: Page = Page {
    name: "optplan.1",
    before: "\n.B optplan ",
    following: "\n",
    ends: "\n.B",
    dashes: "\\-\\-",
};

/// Checks each page for the commands and options of the help, with a line for each missing one and one for the counts. Returns
/// the number of missing ones.
pub fn compare_pages(rt: &HostRuntime) -> io::Result<u64> {
    let program = said(rt.alloc(), &["help"])?;
    let mut tally = Tally::default();
    look_in_pages(rt, program.as_str(), &mut tally)?;
    let Tally { cases, differing } = tally;
    println!(rt; "completions and manual page: {cases} names, {differing} missing")?;
    Ok(differing)
}

/// What the program's help lists.
#[derive(Drop)]
struct Listed<'a> {
    options: Vec<&'a str>,
    commands: Vec<&'a str>,
}

/// Checks each page for what the program's help lists.
fn look_in_pages(rt: &HostRuntime, program: &str, tally: &mut Tally) -> io::Result<()> {
    let listed = Listed {
        options: options(rt.alloc(), program)?,
        commands: commands(rt.alloc(), program)?,
    };
    for page in [BASH, ZSH, FISH, MANUAL] {
        look_in_page(rt, page, &listed, tally)?;
    }
    Ok(())
}

/// Checks a page for the options and commands of the program.
fn look_in_page(
    rt: &HostRuntime,
    page: Page,
    listed: &Listed<'_>,
    tally: &mut Tally,
) -> io::Result<()> {
    let text = fs::read_to_string(rt, page.name)?;
    let look = Look {
        rt,
        page,
        shared: listed.options.as_slice(),
    };
    look.compare(text.as_str(), listed.commands.as_slice(), tally)
}

/// A passage of a page: what it says about one command, or the whole page about the program.
#[derive(Clone, Copy)]
struct Passage<'a> {
    command: &'a str,
    text: &'a str,
}

/// A look at one page.
#[derive(Clone, Copy)]
struct Look<'a> {
    rt: &'a HostRuntime,
    page: Page,
    /// The options of the program, which every command has.
    shared: &'a [&'a str],
}

impl Look<'_> {
    /// Checks the text of the page for the program's options, and for these commands.
    fn compare(&self, text: &str, commands: &[&str], tally: &mut Tally) -> io::Result<()> {
        let command = "optplan";
        for option in self.shared {
            self.find(Passage { command, text }, option, tally)?;
        }
        for command in commands {
            self.compare_command(text, command, tally)?;
        }
        Ok(())
    }

    /// Checks for the part of a command, and in it for the options in the command's help. The program's own options are searched
    /// in the whole text.
    fn compare_command(&self, text: &str, command: &str, tally: &mut Tally) -> io::Result<()> {
        let alloc = self.rt.alloc();
        let part = part_of(alloc, self.page, text, command)?;
        self.count_part(command, part, tally)?;
        let own = help_of(alloc, command)?;
        let text = part.unwrap_or("");
        for option in &options(alloc, own.as_str())? {
            if !is_among(option, self.shared) {
                self.find(Passage { command, text }, option, tally)?;
            }
        }
        Ok(())
    }

    /// Counts the part of a command, and reports if it is missing.
    fn count_part(&self, command: &str, part: Option<&str>, tally: &mut Tally) -> io::Result<()> {
        if part.is_some() {
            tally.count(Compared::Same);
            return Ok(());
        }
        tally.count(Compared::Different);
        let (rt, page) = (self.rt, self.page.name);
        println!(rt; "{page}: no part for {command}")
    }

    /// Checks for an option in a passage, and reports if it is missing.
    fn find(&self, passage: Passage<'_>, option: &str, tally: &mut Tally) -> io::Result<()> {
        let (rt, page, command) = (self.rt, self.page.name, passage.command);
        let word = format!(in rt.alloc(); "{}{option}", self.page.dashes)?;
        if has_word(passage.text, word.as_str()) {
            tally.count(Compared::Same);
            return Ok(());
        }
        tally.count(Compared::Different);
        println!(rt; "{page}: --{option} of {command} is missing")
    }
}

/// Whether the name is one of these.
fn is_among(name: &str, names: &[&str]) -> bool {
    names.iter().any(|&other| other == name)
}

/// The part of a text about the command, if there is one.
fn part_of<'a>(
    alloc: Global,
    page: Page,
    text: &'a str,
    command: &str,
) -> Result<Option<&'a str>, AllocError> {
    let begins = format!(in alloc; "{}{command}{}", page.before, page.following)?;
    match text.split_once(begins.as_str()) {
        Some((_, below)) => Ok(below.split(page.ends).next()),
        None => Ok(None),
    }
}

/// Whether the text contains the word other than as the beginning of a longer one.
fn has_word(text: &str, word: &str) -> bool {
    text.split(word).skip(1).any(|rest| !rest.starts_with(|next: char| next == '-'
        || next.is_ascii_alphanumeric()))
}

/// The help of a command.
fn help_of(alloc: Global, command: &str) -> Result<String, AllocError> {
    let words = ["help", command];
    said(alloc, &words)
}

/// The program's standard error for these words.
fn said(alloc: Global, words: &[&str]) -> Result<String, AllocError> {
    let mut files = Table::new(alloc);
    let (mut out, mut err) = (Memory::empty(alloc), Memory::empty(alloc));
    planner_main::run(alloc, words, &mut files, &mut out, &mut err);
    String::from_utf8_lossy(alloc, err.as_slice())
}

/// The commands listed in the program's help.
fn commands<'a>(alloc: Global, help: &'a str) -> Result<Vec<&'a str>, AllocError> {
    let mut names = Vec::new(alloc);
    let (_, listed) = help.split_once("\nCommands:\n").unwrap_or(("", ""));
    for line in listed.lines().take_while(|line| !line.is_empty()) {
        names.push(line.split_whitespace().next().unwrap_or(""))?;
    }
    Ok(names)
}

/// The names of the options in a help text, each on a line that begins with hyphens.
fn options<'a>(alloc: Global, help: &'a str) -> Result<Vec<&'a str>, AllocError> {
    let mut names = Vec::new(alloc);
    for line in help.lines() {
        let mut words = line.split_whitespace();
        if line.trim_start().starts_with('-') {
            let name = words.find_map(|word| word.strip_prefix("--"));
            names.push(name.unwrap_or(""))?;
        }
    }
    Ok(names)
}
