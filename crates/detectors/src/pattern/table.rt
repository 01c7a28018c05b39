//! A table of the dead cuts of a pattern.
ghost use Rattle.std.specs.Prelude.{◌≡◌, map, IfOk};
ghost use Rattle.model.specs.Drafts.{recorded};
ghost use Rattle.detectors.specs.CutTables.{value_of, whole_cut, dead_cut, cut_table};
ghost use Rattle.detectors.specs.Cuts.{cut_of, cut_move};

use crate::pattern::cut::{Cut, CutMove};
use crate::pattern::variables::Variables;
use crate::pattern::walking::is_cut_off;
use model::sealed::Model;
use std::alloc::{AllocError, Global};

/// There are as many numbers as ways to give or leave open three entries with 16 values each.
const NUMBERS: usize = 17 * 17 * 17;

/// For each number whether its cut is dead.
pub(crate) fn dead_cuts(
    heap: Global,
    model: &Model,
    variables: &Variables,
) -> Result<Vec<bool>, AllocError>
    ensures { IfOk result (λ table. table.items ≡ cut_table (recorded model.now) variables.now) }
{
    let moves = variables.cut_moves(heap, model.moves())?;
    let goal = variables.cut(model.goal());
    tell_each(heap, model, variables, &moves, &goal)
}

/// The same, where the moves and the goal are cut.
#[tactic(auto, unfolding(crate::specs::CutTables::cut_table))]
fn tell_each(
    heap: Global,
    model: &Model,
    variables: &Variables,
    moves: &[CutMove],
    goal: &Cut,
) -> Result<Vec<bool>, AllocError>
    requires moves { moves.now ≡ map (cut_move variables.now) (recorded model.now).moves }
    requires goal { goal.now ≡ cut_of variables.now (recorded model.now).goal }
    ensures { IfOk result (λ table. table.items ≡ cut_table (recorded model.now) variables.now) }
{
    (0..NUMBERS)
        .map(|number| is_dead(model, variables, moves, goal, Cut::at(number)))
        .collect(heap)
}

/// Whether the cut gives each of the variables, and no more, and is cut off. From other cuts no walk is made.
fn is_dead(model: &Model, variables: &Variables, moves: &[CutMove], goal: &Cut, cut: Cut) -> bool
    requires moves { moves.now ≡ map (cut_move variables.now) (recorded model.now).moves }
    requires goal { goal.now ≡ cut_of variables.now (recorded model.now).goal }
    ensures { result ≡ dead_cut (recorded model.now) variables.now cut }
{
    is_whole(model, variables, &cut) && is_cut_off(moves, goal, cut)
}

/// Whether the cut gives each of the variables a value below its size, and no more.
fn is_whole(model: &Model, variables: &Variables, cut: &Cut) -> bool
    ensures { result ≡ whole_cut (recorded model.now).variables variables.now cut.now }
{
    is_value(model, Some(variables.first), cut.first)
        && is_value(model, variables.second, cut.second)
        && is_value(model, variables.third, cut.third)
}

/// Whether the entry is a value of the variable; open, where there is none.
fn is_value(model: &Model, variable: Option<usize>, entry: Option<u8>) -> bool
    ensures { result ≡ value_of (recorded model.now).variables variable entry }
{
    match (variable, entry) {
        (Some(variable), Some(value)) => value < model.value_count(variable),
        (None, None) => true,
        _ => false,
    }
}
