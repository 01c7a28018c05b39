//! A detector is made by its kind and its operands.
ghost use Rattle.std.specs.Prelude.{◌≡◌, [], ◌∷◌, IfOk, slice_index};
ghost use Rattle.std.specs.List.{list_all};
ghost use Rattle.model.specs.Drafts.{recorded};
ghost use Rattle.detectors.specs.Operands.{none_given};
ghost use Rattle.detectors.specs.Choosing.{kind_number, kind_answer};
ghost use Rattle.detectors.specs.Shipping.{made_told, model_told, MadeMeansWhatIsTold, EveryShippedDetectorIsLawful, EveryShippedDetectorDecides};

use crate::bare::Bare;
use crate::kind::Kind;
use crate::pattern::Pattern;
use crate::pattern::operands::NONE;
use crate::relaxed::Relaxed;
use crate::shipped::Shipped;
use crate::unmade::Unmade;
use model::sealed::Model;
use refusal::Refusal;
use std::alloc::{AllocError, Global};

/// Makes the detector of a kind: 0 is bare, 1 relaxed and 2 a pattern. The first two take no variable, so that each operand is
/// 255; a pattern takes one to three. Where it is refused the model is given back. The kind is a number, since one that is unknown is
/// refused here.
#[tactic(auto, using(crate::proofs::ShippedLaws::shipped_lawful, crate::proofs::ShippedLaws::shipped_decides, crate::proofs::MadeByKind::number_of_kind))]
pub fn make(
    heap: Global,
    model: Model,
    kind: u8,
    operands: [u8; 3],
) -> Result<Result<Shipped, Unmade>, AllocError>
    ensures answer { IfOk result (λ made. made_told made ≡ kind_answer (recorded model).variables kind (slice_index operands 0) (slice_index operands 1) (slice_index operands 2)) }
    ensures model { IfOk result (λ made. model_told made ≡ recorded model) }
    ensures meaning { IfOk result MadeMeansWhatIsTold }
    ensures lawful { EveryShippedDetectorIsLawful }
    ensures decides { EveryShippedDetectorDecides }
{
    match Kind::try_from(kind) {
        Ok(kind) => make_kind(heap, model, kind, operands),
        Err(refusal) => Ok(Err(Unmade { model, refusal })),
    }
}

/// Makes the detector of a kind that is known.
#[tactic(auto, using(crate::proofs::MadeByKind::pattern_means))]
fn make_kind(
    heap: Global,
    model: Model,
    kind: Kind,
    operands: [u8; 3],
) -> Result<Result<Shipped, Unmade>, AllocError>
    ensures answer { IfOk result (λ made. made_told made ≡ kind_answer (recorded model).variables (kind_number kind) (slice_index operands 0) (slice_index operands 1) (slice_index operands 2)) }
    ensures model { IfOk result (λ made. model_told made ≡ recorded model) }
    ensures meaning { IfOk result MadeMeansWhatIsTold }
{
    // Not by a guard in the `match`, behind which a proof does not know the kind.
    if kind != Kind::Pattern && !gives_none(operands) {
        return Ok(Err(Unmade {
            model,
            refusal: Refusal::WrongOperands,
        }));
    }
    match kind {
        Kind::Bare => Ok(Ok(Shipped::Bare(Bare::new(model)))),
        Kind::Relaxed => Ok(Ok(Shipped::Relaxed(Relaxed::new(model)))),
        Kind::Pattern => Ok(Pattern::over(heap, model, operands)?.map(Shipped::Pattern)),
    }
}

/// Whether no operand gives a variable.
fn gives_none(operands: [u8; 3]) -> bool
    ensures { result ≡ list_all none_given (slice_index operands 0 ∷ slice_index operands 1 ∷ slice_index operands 2 ∷ []) }
{
    operands == [NONE; 3]
}
