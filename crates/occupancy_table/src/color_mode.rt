//! Whether full groups are coloured.
ghost use Rattle.std.specs.Prelude.{◌≡◌};
ghost use Rattle.occupancy_table.specs.Colours.{is_coloured};

/// How a table is painted: not at all, or so that a terminal shows the cells of full groups in bold red.
#[derive(Clone, Copy, Debug, PartialEq, Eq)]
pub enum ColorMode {
    Plain,
    Coloured,
}

impl ColorMode {
    /// Whether a cell is coloured: where colours are wanted, that of a group of which no more hosts may go down.
    pub(crate) fn colours(self, down: u64, limit: u64) -> bool
        ensures { result ≡ is_coloured self down limit }
    {
        match self {
            ColorMode::Plain => false,
            ColorMode::Coloured => down >= limit,
        }
    }
}
