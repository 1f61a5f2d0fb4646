// The fields of an encoding as definitions with their laws: how constrained and unconstrained whole numbers lie in bits,
// and how bits are read as fields.
#![tactic(auto)]
