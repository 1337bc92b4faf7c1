//! The C boundary: the engine's calls, exported on structs that a host lends, each with its answer by value. Hosts link against these names, parameters and
//! structs, which are fixed. In both stacks a call leaves zero in the place of each word that it releases; above the greatest depth that a stack has in it,
//! no word changes.
#![tactic(auto)]

mod beside;
mod compilation;
mod evaluation;
mod layout;
