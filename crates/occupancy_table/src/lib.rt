//! The table of limited groups: how many hosts of each are down before the first batch, and while each batch runs.
#![tactic(auto)]

mod blocks;
mod color_mode;
mod counts;
mod grid;
mod laws;
mod padding;
mod settling;
mod table;
mod widths;
mod writing;

pub use blocks::write_table;
pub use color_mode::ColorMode;
pub use grid::Grid;
pub use laws::{colours_change_no_cell, plans_are_within_limits, what_fits_is_within_limits};
pub use table::{GroupTable, tabulate_plan};
