// Selection, asked for in numbers and in lists of words, so many for each item, and answered in words.
#![tactic(auto)]

mod selection;

pub use selection::select_words;
