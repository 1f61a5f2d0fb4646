// The elements of DER as definitions with their laws: tag, length and contents, and what octets give when they are read. The crate `der` has the
// functions.
#![tactic(auto)]
