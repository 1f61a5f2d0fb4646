// Settings lists: a text's pairs of property and setting, each setting by its number.
#![tactic(auto)]

pub mod lists;
pub mod words;
