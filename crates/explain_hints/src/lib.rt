//! What explains a fault: its line and column, similar names, a sentence about it, and the likely mistake.
#![tactic(auto)]

mod context;
mod declarations;
mod hint;
mod hints;
mod line;
mod lists;
mod marks;
mod near;
mod of_arguments;
mod of_bare_words;
mod of_characters;
mod of_forms;
mod of_left_out;
mod of_names;
mod of_repeats;
mod of_runs;
mod of_terms;
mod of_words;
mod place;
mod refusal;
mod sentence;
mod shown;
mod texts;

pub use context::{Context, CutTexts};
pub use hint::{Hint, Sentence};
pub use line::line_at;
pub use lists::{has_word, index_at, opening_of};
pub use marks::marked;
pub use near::is_near;
pub use place::{LineColumn, place_of};
pub use refusal::{FileRefusal, reported_bytes};
pub use sentence::after_word;
pub use shown::{FilePlace, Name, separator};
pub use texts::{File, NamedText, NamedTexts};
