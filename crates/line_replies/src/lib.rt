// What the line program replies to a line, as definitions with a table of lines. The crate `lines` has the functions.
#![tactic(auto)]
