//! The command that makes the detector.
ghost use Rattle.std.specs.Prelude.{◌≡◌, IfOk};
ghost use Rattle.sheet.specs.Reading.{told};
ghost use Rattle.model.specs.Drafts.{recorded};
ghost use Rattle.detectors.specs.Shipping.{made_told, model_told, MadeMeansWhatIsTold};
ghost use Rattle.desk.specs.DetectorPart.{choice_answer};

use detectors::making::make;
use detectors::shipped::Shipped;
use detectors::unmade::Unmade;
use model::sealed::Model;
use refusal::Refusal;
use sheet::Command;
use std::alloc::{AllocError, Global};

/// Makes the detector that the command behind the model chooses, or gives the model back.
pub(crate) fn make_detector(
    heap: Global,
    model: Model,
    command: Command,
) -> Result<Result<Shipped, Unmade>, AllocError>
    ensures told { IfOk result (λ made. made_told made ≡ choice_answer (recorded model).variables (told command.entry)) }
    ensures model { IfOk result (λ made. model_told made ≡ recorded model) }
    ensures meaning { IfOk result MadeMeansWhatIsTold }
{
    let refusal = match command {
        Command::Detector { kind, variables } => return make(heap, model, kind, variables),
        Command::Fault(fault) => fault.into(),
        _ => Refusal::OutOfTurn,
    };
    Ok(Err(Unmade { model, refusal }))
}
