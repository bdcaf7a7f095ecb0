//! The definitions of the compiler: the words of values and frames, what is used of a checked program, its code, and what it means that the
//! code is correct; with what the parts of that proof owe one another.
#![tactic(auto)]
