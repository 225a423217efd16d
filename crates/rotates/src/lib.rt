#![tactic(auto)]
// No code: the steps over strings of rotates, from the chip's definitions.
