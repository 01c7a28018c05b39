//! The operands that choose the variables of a pattern.
ghost use Rattle.std.specs.Prelude.{◌≡◌, ◌<◌, ◌≤◌, [], ◌∷◌, IfSome, IfOk, slice_index};
ghost use Rattle.model.specs.Drafts.{recorded};
ghost use Rattle.detectors.specs.Operands.{size_from, pattern_product, if_given, pattern_answer};
ghost use Rattle.detectors.specs.PatternMeaning.{product_of_sizes};

use crate::pattern::variables::Variables;
use model::sealed::Model;
use refusal::Refusal;

/// An operand that stands for no variable.
pub(crate) const NONE: u8 = 0xff;

/// The size of a variable of a pattern; none where it is below the lowest that it may be, or the model does not have it.
fn size_from(model: &Model, lowest: usize, variable: usize) -> Option<u32>
    ensures answer { result ≡ size_from (recorded model.now).variables lowest variable }
    ensures small { IfSome result (λ size. size < 256) }
{
    if variable < lowest {
        None
    } else {
        model.size(variable).map(u32::from)
    }
}

/// The product of the sizes of one to three rising variables, behind which no operand gives one.
fn pattern_product(model: &Model, operands: [u8; 3]) -> Option<u32>
    ensures { result ≡ pattern_product (recorded model.now).variables (slice_index operands 0) (slice_index operands 1 ∷ slice_index operands 2 ∷ []) }
{
    let [first, second, third] = operands;
    let first = usize::from(first);
    let a = size_from(model, 0, first)?;
    match (given(second), given(third)) {
        (None, None) => Some(a),
        (None, Some(_)) => None,
        (Some(second), None) => Some(a * size_from(model, first + 1, second)?),
        (Some(second), Some(third)) => {
            let b = size_from(model, first + 1, second)?;
            let c = size_from(model, second + 1, third)?;
            Some(a * (b * c))
        }
    }
}

/// The variable that an operand gives, if it gives one.
fn given(operand: u8) -> Option<usize>
    ensures { result ≡ if_given operand }
{
    (operand != NONE).then_some(usize::from(operand))
}

/// The variables that the operands choose, whose sizes multiply to at most 512.
pub(super) fn choose_variables(model: &Model, operands: [u8; 3]) -> Result<Variables, Refusal>
    ensures answer { result ≡ pattern_answer (recorded model.now).variables (slice_index operands 0) (slice_index operands 1) (slice_index operands 2) }
    ensures small { IfOk result (λ x. product_of_sizes (recorded model.now).variables x ≤ 512) }
{
    match pattern_product(model, operands) {
        Some(product) if product <= 512 => {
            let [first, second, third] = operands;
            Ok(Variables {
                first: usize::from(first),
                second: given(second),
                third: given(third),
            })
        }
        _ => Err(Refusal::WrongOperands),
    }
}
