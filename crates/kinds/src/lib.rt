// What an encoder and a decoder answer, as definitions with their laws: for any kind of value and any encoding of it.
#![tactic(auto)]
