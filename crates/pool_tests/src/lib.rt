//! What no clause and no command says of workers: that a step on a pool of its own comes to its end where there is memory, that its programs run at once,
//! that it is the same at any number of forks, and want of memory; what a step says that does not come to its end; and that the threads of a line end.
#![tactic(auto)]

#[cfg(test)]
mod by_hand;
#[cfg(test)]
mod faults;
#[cfg(test)]
mod gate;
#[cfg(test)]
mod gathered;
#[cfg(test)]
mod memory;
#[cfg(test)]
mod rolling;
#[cfg(test)]
mod rows;
