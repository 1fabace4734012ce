//! How courses are told.

use occupancy_table::ColorMode;

/// Whether each course stands under the number of its play, as where there are several, and how the tables are painted.
#[derive(Clone, Copy, Debug)]
pub(crate) struct Manner {
    pub(crate) several: bool,
    pub(crate) paint: ColorMode,
}
