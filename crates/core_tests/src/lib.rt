//! What no command reaches below the workers: copies of a tree, also on heaps that run out; boards that were refused memory and are asked again, and claims
//! that are stranded; and the texts of faults that no command prints.
#![tactic(auto)]

#[cfg(test)]
mod fault_texts;
#[cfg(test)]
mod heaps;
#[cfg(test)]
mod refused;
#[cfg(test)]
mod region;
#[cfg(test)]
mod trees;
