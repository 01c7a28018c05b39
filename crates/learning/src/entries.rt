//! A part of a state gains entries of the state.
ghost use Rattle.std.specs.Prelude.{◌≡◌};
ghost use Rattle.learning.specs.Parts.{disagrees_on, first_part, lowest_disagreeing, lowest_missing, missing, with_entry_of};

use model::entry::entries_differ;
use model::row::Row;

/// Whether the state disagrees with the goal on the variable.
fn disagrees_on(goal: &Row, state: &Row, variable: usize) -> bool
    ensures { result ≡ disagrees_on goal.now state.now variable }
{
    entries_differ(state.entry(variable), goal.entry(variable))
}

/// The lowest variable on which the state disagrees with the goal.
fn lowest_disagreeing(goal: &Row, state: &Row) -> Option<usize>
    ensures { result ≡ lowest_disagreeing goal.now state.now }
{
    (0..32).find(|variable| disagrees_on(goal, state, *variable))
}

/// Whether the state gives the variable and the part does not.
fn is_missing(state: &Row, part: &Row, variable: usize) -> bool
    ensures { result ≡ missing state.now part.now variable }
{
    state.gives(variable) && !part.gives(variable)
}

/// The lowest variable that the state gives and the part does not.
pub(crate) fn lowest_missing(state: &Row, part: &Row) -> Option<usize>
    ensures { result ≡ lowest_missing state.now part.now }
{
    (0..32).find(|variable| is_missing(state, part, *variable))
}

/// The part with the state's entry of the variable.
pub(crate) fn with_entry_of(state: &Row, part: &Row, variable: usize) -> Row
    ensures { result ≡ with_entry_of state.now part.now variable }
{
    let mut more = *part;
    if let Some(value) = state.entry(variable) {
        more.set(variable, value);
    }
    more
}

/// What the state keeps at first: the lowest variable on which it disagrees with the goal.
#[tactic(auto, unfolding(crate::specs::Parts::first_part))]
pub(crate) fn first_part(goal: &Row, state: &Row) -> Row
    ensures { result ≡ first_part goal.now state.now }
{
    let open = Row::open();
    lowest_disagreeing(goal, state).map_or(open, |variable| with_entry_of(state, &open, variable))
}
