//! Worked examples on four small models, shown true of the definitions.
#![tactic(auto)]

ghost use Rattle.std.specs.Prelude.{◌≡◌};
ghost use Rattle.worked.specs.Examples.{WorkedExamplesHold, number_of_examples};

/// How many examples there are. Each of them holds.
#[tactic(auto, using(crate::proofs::ShowExamples::worked_examples_hold))]
pub fn worked_examples() -> usize
    ensures count { result ≡ number_of_examples }
    ensures hold { WorkedExamplesHold }
{
    40
}
