//! The batches by which a rehearsal went on, as a JSON object.
ghost use Rattle.std.specs.Prelude.{drop};
ghost use Rattle.bounded_io.specs.Writing.{Writes};
ghost use Rattle.json_output.specs.Arrays.{entries_text};
ghost use Rattle.json_output.specs.PlanJson.{batches_json, names_json};
ghost use Rattle.rehearse.specs.JsonReplies.{advanced_json};
ghost use Rattle.rehearse.specs.Stacks.{batches_to};

use crate::rehearsal::Rehearsal;
use bounded_io::TextWriter;
use json_output::write_batch;
use std::io::Write;

fn write_each_batch<W: Write>(text: &mut TextWriter<'_, W>, rehearsal: &Rehearsal<'_>, from: usize)
    ensures { Writes W.contents text.old text.new
        (entries_text (λ place hosts. names_json rehearsal.now.rules.fleet hosts) (drop from (batches_to rehearsal.now.first rehearsal.now.above))) }
{
    for place in 0..rehearsal.advances().saturating_sub(from) {
        write_batch(
            text,
            rehearsal.fleet(),
            place,
            rehearsal.batch(from + place),
        );
    }
}

/// Writes the batches behind so many.
#[tactic(auto, using(bounded_io::proofs::Pieces::pieces_of_text))]
fn write_batches_from<W: Write>(
    text: &mut TextWriter<'_, W>,
    rehearsal: &Rehearsal<'_>,
    from: usize,
)
    ensures { Writes W.contents text.old text.new (batches_json rehearsal.now.rules.fleet (drop from (batches_to rehearsal.now.first rehearsal.now.above))) }
{
    text.write_str("[");
    write_each_batch(text, rehearsal, from);
    text.write_str("]");
}

/// Writes that the rehearsal went on by the batches behind so many.
#[tactic(auto, using(bounded_io::proofs::Pieces::pieces_of_text))]
pub(crate) fn write_advanced<W: Write>(
    text: &mut TextWriter<'_, W>,
    rehearsal: &Rehearsal<'_>,
    from: usize,
)
    ensures { Writes W.contents text.old text.new (advanced_json rehearsal.now.rules.fleet (drop from (batches_to rehearsal.now.first rehearsal.now.above))) }
{
    text.write_str("{\"reply\":\"advanced\",\"batches\":");
    write_batches_from(text, rehearsal, from);
    text.write_str("}\n");
}
