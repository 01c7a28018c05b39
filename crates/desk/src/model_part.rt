//! The model part of a sheet: from its first command to the one that seals the model.
ghost use Rattle.std.specs.Prelude.{◌≡◌, length};
ghost use Rattle.sheet.specs.Commands.{commands_from};
ghost use Rattle.desk.specs.Stages.{phase_of, record_so_far};
ghost use Rattle.desk.specs.ModelPart.{model_part};
ghost use Rattle.desk.specs.Told.{model_part_told};

use crate::opening::Stop;
use crate::stage::Stage;
use model::sealed::Model;
use refusal::Refusal;
use sheet::command_at;
use std::ops::ControlFlow::{Break, Continue};

/// The model that a sheet writes, and the place of what follows it there.
#[derive(Drop)]
pub(crate) struct SealedAt {
    pub(crate) model: Model,
    pub(crate) next: usize,
}

/// Reads the sheet from its first command to the one that seals the model in hand.
pub(crate) fn read_model(mut stage: Stage, sheet: &[u8]) -> Result<SealedAt, Stop>
    ensures { model_part_told sheet.now result ≡ model_part (length sheet.now) (phase_of stage) (record_so_far stage) (commands_from sheet.now 0) }
{
    // By places, since a command's end is known only when it is read.
    let mut place = 0;
    while let Some(found) = command_at(sheet, place) {
        match stage.take(found.command) {
            Ok(Continue(next)) => stage = next,
            Ok(Break(model)) => return Ok(SealedAt {
                model,
                next: found.next,
            }),
            Err(refusal) => return Err(Stop::at(sheet.len(), found.place, refusal)),
        }
        place = found.next;
    }
    Err(Stop::at(sheet.len(), place, Refusal::SheetEnds))
}
