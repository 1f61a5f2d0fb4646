// Values under types as definitions with their laws: which values exist, which a type holds, what a text gives, and what
// every encoding of dates and times shares. The crate `values` has the functions.
#![tactic(auto)]
