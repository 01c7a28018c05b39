//! Models are written from tables.

use anyhow::anyhow;
use model::in_hand::{End, NamingVariables, Part, WritingEnds, WritingMoves};
use model::sealed::Model;
use refusal::Refusal;
use std::alloc::Global;

/// A variable with a value.
pub type Entry = (usize, u8);

/// A variable to be named, with its size.
pub type Named = ([u8; 8], u8);

/// A move to be written.
#[derive(Clone, Copy)]
pub struct Step<'a> {
    pub name: [u8; 8],
    pub conditions: &'a [Entry],
    pub effects: &'a [Entry],
}

/// A model to be written.
#[derive(Clone, Copy)]
pub struct Sketch<'a> {
    pub variables: &'a [Named],
    pub steps: &'a [Step<'a>],
    pub start: &'a [Entry],
    pub goal: &'a [Entry],
}

impl<'a> Sketch<'a> {
    /// The model that is sketched.
    pub(crate) fn sealed(&self, heap: Global) -> anyhow::Result<Model> {
        let mut naming = NamingVariables::new(heap)?;
        for (name, size) in self.variables {
            done(naming.name_variable(*size, *name))?;
        }
        let mut ends = write_steps(naming, self.steps)?;
        write_end(&mut ends, End::Start, self.start)?;
        write_end(&mut ends, End::Goal, self.goal)?;
        match ends.seal() {
            Ok(model) => Ok(model),
            Err(_) => Err(anyhow!("the start of a model leaves a variable open")),
        }
    }
}

/// A step that is done, or by which number it is refused.
fn done(step: Result<(), Refusal>) -> anyhow::Result<()> {
    match step {
        Ok(()) => Ok(()),
        Err(refusal) => Err(anyhow!("a model is refused by {}", refusal.number())),
    }
}

/// Writes the moves.
fn write_steps(naming: NamingVariables, steps: &[Step]) -> anyhow::Result<WritingEnds> {
    let Some((first, others)) = steps.split_first() else {
        return Ok(naming.into_ends());
    };
    let mut moves = naming.begin_move(first.name);
    write_step(&mut moves, first)?;
    for step in others {
        done(moves.begin_move(step.name))?;
        write_step(&mut moves, step)?;
    }
    Ok(moves.into_ends())
}

/// Writes the rows of the move begun last.
fn write_step(moves: &mut WritingMoves, step: &Step) -> anyhow::Result<()> {
    write_part(moves, Part::Conditions, step.conditions)?;
    write_part(moves, Part::Effects, step.effects)
}

fn write_part(moves: &mut WritingMoves, part: Part, entries: &[Entry]) -> anyhow::Result<()> {
    for (variable, value) in entries {
        done(moves.enter_part(part, *variable, *value))?;
    }
    Ok(())
}

fn write_end(ends: &mut WritingEnds, end: End, entries: &[Entry]) -> anyhow::Result<()> {
    for (variable, value) in entries {
        done(ends.enter_end(end, *variable, *value))?;
    }
    Ok(())
}
