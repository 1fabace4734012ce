//! The lines of a table.
ghost use Rattle.std.specs.Prelude.{◌≡◌, ◌<◌, ◌≤◌, ◌+◌, ◌++◌, codes, length};
ghost use Rattle.bounded_io.specs.Writing.{Writes};
ghost use Rattle.occupancy_table.specs.TableText.{block_text, cells_text, column_head, grid_of, head_line, leftwards, name_text, rightwards, row_line, rows_text, span_text};

use crate::grid::{Grid, Span};
use crate::padding::{write_blanks, write_cell, write_head, write_left, write_number};
use crate::widths::{Widths, mark_of};
use bounded_io::TextWriter;
use recap::group_name;
use std::io::Write;

/// Writes the heads of these columns.
fn write_heads<W: Write>(text: &mut TextWriter<'_, W>, width: usize, span: Span)
    requires fits { span.from + span.count ≤ 9223372036854775807 }
    ensures { Writes W.contents text.old text.new (span_text (λ place. codes " " ++ rightwards width (column_head place)) span) }
{
    for offset in 0..span.count {
        write_head(text, width, span.from + offset);
    }
}

/// Writes the line of heads.
#[tactic(auto, using(bounded_io::proofs::Pieces::pieces_of_text))]
fn write_head_line<W: Write>(text: &mut TextWriter<'_, W>, widths: &Widths, span: Span)
    requires fits { span.from + span.count ≤ 9223372036854775807 }
    ensures { Writes W.contents text.old text.new (head_line widths.now span) }
{
    write_blanks(text, widths.name);
    text.write_str(" ");
    write_blanks(text, widths.limit);
    write_heads(text, widths.cell, span);
    text.write_str("\n");
}

/// Writes the cells of a row.
fn write_cells<W: Write>(
    text: &mut TextWriter<'_, W>,
    grid: &Grid<'_>,
    widths: &Widths,
    row: usize,
    span: Span,
)
    requires fits { span.from + span.count ≤ 9223372036854775807 }
    ensures { Writes W.contents text.old text.new (cells_text (grid_of grid.now) widths.now row span) }
{
    for offset in 0..span.count {
        let down = grid.count(span.from + offset, row);
        write_cell(text, grid.paint, widths.cell, down, grid.limit(row));
    }
}

fn write_name<W: Write>(text: &mut TextWriter<'_, W>, grid: &Grid<'_>, width: usize, row: usize)
    ensures { Writes W.contents text.old text.new (leftwards width (name_text (grid_of grid.now) row)) }
{
    let name = group_name(grid.fleet, grid.group(row));
    write_left(text, width, name, mark_of(grid.is_marked(row)));
}

/// Writes the line of a row's group.
#[tactic(auto, using(bounded_io::proofs::Pieces::pieces_of_text))]
fn write_row<W: Write>(
    text: &mut TextWriter<'_, W>,
    grid: &Grid<'_>,
    widths: &Widths,
    row: usize,
    span: Span,
)
    requires fits { span.from + span.count ≤ 9223372036854775807 }
    ensures { Writes W.contents text.old text.new (row_line (grid_of grid.now) widths.now span row) }
{
    write_name(text, grid, widths.name, row);
    text.write_str(" ");
    write_number(text, widths.limit, grid.limit(row));
    write_cells(text, grid, widths, row, span);
    text.write_str("\n");
}

fn write_rows<W: Write>(text: &mut TextWriter<'_, W>, grid: &Grid<'_>, widths: &Widths, span: Span)
    requires fits { span.from + span.count ≤ 9223372036854775807 }
    ensures { Writes W.contents text.old text.new (rows_text (grid_of grid.now) widths.now span) }
{
    for row in 0..grid.rows() {
        write_row(text, grid, widths, row, span);
    }
}

/// Writes these columns side by side.
#[tactic(auto, using(bounded_io::proofs::Pieces::pieces_of_text))]
pub(crate) fn write_block<W: Write>(
    text: &mut TextWriter<'_, W>,
    grid: &Grid<'_>,
    widths: &Widths,
    span: Span,
)
    requires fits { span.from + span.count ≤ 9223372036854775807 }
    ensures { Writes W.contents text.old text.new (block_text (grid_of grid.now) widths.now span) }
{
    write_head_line(text, widths, span);
    write_rows(text, grid, widths, span);
}
