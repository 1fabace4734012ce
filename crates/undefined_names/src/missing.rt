//! Names that a condition may look up in vain.
ghost use Rattle.std.specs.Prelude.{◌≡◌, ◌++◌, IfOk, OnOk, map};
ghost use Rattle.undefined_names.specs.Lent.{lent_names};
ghost use Rattle.undefined_names.specs.Outlook as spec;
ghost use Rattle.undefined_names.specs.Outlook.{chained, outlook_of, part_outlook, test_outlook, tree_outlook};
ghost use Rattle.cond.specs.Trees.{written};

use crate::name_status::StaticEnv;
use crate::partial_eval::{add_missed, eval_partially, turned_known};
use cond::leaf::Test;
use cond::span::split;
use cond::tree::Tree;
use cond::{Cond, Part};
use std::alloc::AllocError;

/// Whether the condition holds on a host, where that is known at the outset. The names that it may look up in vain are added in the order of reading, each as often as it
/// stands there, but for those behind a part that is known to decide; who only asks whether a name is defined looks up none in vain. That a result has no `rc` is not foreseen.
/// It fails for want of memory alone, which it takes only for names that it adds; some of them may be there then.
pub(crate) fn foresee<'c, F: StaticEnv>(
    cond: &'c Cond,
    foresight: &F,
    missed: &mut Vec<&'c str>,
) -> Result<Option<bool>, AllocError>
    ensures known { IfOk result (λ holds. holds ≡ (outlook_of (F.outset foresight.now) cond.now).holds) }
    ensures missed { OnOk result (lent_names missed.new.items ≡ lent_names missed.old.items ++ (outlook_of (F.outset foresight.now) cond.now).missed) }
{
    let mut left = cond.text.as_bytes();
    let mut trees = cond.trees.as_slice();
    let mut known = Some(true);
    for part in &cond.parts {
        let (text, behind) = split(left, usize::from(part.bytes()));
        let (own, others) = split(trees, part.trees());
        let here = foresee_part(text, *part, own, foresight, missed)?;
        known = known_chain(false, known, here);
        if decides(false, known) {
            return Ok(known);
        }
        (left, trees) = (behind, others);
    }
    Ok(known)
}

fn foresee_part<'c, F: StaticEnv>(
    text: &'c [u8],
    part: Part,
    trees: &[Tree],
    foresight: &F,
    missed: &mut Vec<&'c str>,
) -> Result<Option<bool>, AllocError>
    ensures known { IfOk result (λ holds. holds ≡ (part_outlook (F.outset foresight.now) text.now trees.now part).holds) }
    ensures missed { OnOk result (lent_names missed.new.items ≡ lent_names missed.old.items ++ (part_outlook (F.outset foresight.now) text.now trees.now part).missed) }
{
    match part {
        Part::Test { denied, test, .. } => {
            let known = foresee_test(text, test, foresight, missed)?;
            Ok(turned_known(denied, known))
        }
        Part::Trees { .. } => foresee_chain(text, trees, false, foresight, missed),
    }
}

#[cycle(missing)]
fn foresee_chain<'c, F: StaticEnv>(
    text: &'c [u8],
    trees: &[Tree],
    deciding: bool,
    foresight: &F,
    missed: &mut Vec<&'c str>,
) -> Result<Option<bool>, AllocError>
    ensures known { IfOk result (λ holds. holds ≡ (chained deciding (map (tree_outlook text.now (F.outset foresight.now)) trees.now)).holds) }
    ensures missed { OnOk result (lent_names missed.new.items ≡ lent_names missed.old.items ++ (chained deciding (map (tree_outlook text.now (F.outset foresight.now)) trees.now)).missed) }
{
    let mut known = Some(!deciding);
    for tree in trees {
        let here = match foresee_tree(text, tree, foresight, missed) {
            Ok(here) => here,
            Err(refused) => return Err(refused),
        };
        known = known_chain(deciding, known, here);
        if decides(deciding, known) {
            return Ok(known);
        }
    }
    Ok(known)
}

#[cycle(missing)]
fn foresee_tree<'c, F: StaticEnv>(
    text: &'c [u8],
    tree: &Tree,
    foresight: &F,
    missed: &mut Vec<&'c str>,
) -> Result<Option<bool>, AllocError>
    ensures known { IfOk result (λ holds. holds ≡ (tree_outlook text.now (F.outset foresight.now) tree.now).holds) }
    ensures missed { OnOk result (lent_names missed.new.items ≡ lent_names missed.old.items ++ (tree_outlook text.now (F.outset foresight.now) tree.now).missed) }
{
    match tree {
        Tree::Either(parts) => foresee_chain(text, parts, true, foresight, missed),
        Tree::Both(parts) => foresee_chain(text, parts, false, foresight, missed),
        Tree::Negated(part) => match foresee_tree(text, part, foresight, missed) {
            Ok(known) => Ok(turned_known(true, known)),
            Err(refused) => Err(refused),
        },
        Tree::Leaf(test) => foresee_test(text, *test, foresight, missed),
        Tree::Denied(test) => match foresee_test(text, *test, foresight, missed) {
            Ok(known) => Ok(turned_known(true, known)),
            Err(refused) => Err(refused),
        },
    }
}

fn foresee_test<'c, F: StaticEnv>(
    text: &'c [u8],
    test: Test,
    foresight: &F,
    missed: &mut Vec<&'c str>,
) -> Result<Option<bool>, AllocError>
    ensures known { IfOk result (λ holds. holds ≡ (test_outlook (F.outset foresight.now) (written text.now test)).holds) }
    ensures missed { OnOk result (lent_names missed.new.items ≡ lent_names missed.old.items ++ (test_outlook (F.outset foresight.now) (written text.now test)).missed) }
{
    add_missed(text, test, foresight, missed)?;
    Ok(eval_partially(text, test, foresight))
}

fn known_chain(deciding: bool, first: Option<bool>, later: Option<bool>) -> Option<bool>
    ensures { result ≡ spec.known_chain deciding first later }
{
    if decides(deciding, first) || decides(deciding, later) {
        return Some(deciding);
    }
    match first {
        Some(_) => later,
        None => None,
    }
}

/// Whether a part of which this is known decides a chain.
pub(crate) fn decides(deciding: bool, known: Option<bool>) -> bool
    ensures { result ≡ spec.decides deciding known }
{
    match known {
        Some(holds) => holds == deciding,
        None => false,
    }
}
