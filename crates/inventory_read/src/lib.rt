//! Reads an inventory from the bytes of a JSON text, or finds its errors.
#![tactic(auto)]

mod bounds;
mod build;
mod checking;
mod children;
mod collector;
mod entries;
mod fault;
mod flaw;
mod keys;
mod laws;
mod limits;
mod path;
mod read;
mod rules;
mod shapes;
mod told;
mod variables;
mod worked;

pub use fault::ReadFault;
pub use laws::{
    merged_lists_are_in_name_order, merged_lists_keep_every_entry, own_entries_come_first,
};
pub use read::{inventory_or_faults, read_inventory};
pub use told::Told;
