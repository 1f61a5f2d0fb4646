// What the text of a type says, as definitions with their laws. The crate `settings` has the functions.
#![tactic(auto)]
