//! A pattern is made, and asked the two questions of a detector.
ghost use Rattle.std.specs.Prelude.{◌≡◌, ◌≤◌, true, map, IfOk, slice_index};
ghost use Rattle.model.specs.Drafts.{recorded};
ghost use Rattle.detectors.specs.Operands.{pattern_answer};
ghost use Rattle.detectors.specs.Patterns.{pattern_model, pattern_variables, chosen_or_refused, carried_or_back, MadeDecides, MadeLawful};
ghost use Rattle.detectors.specs.PatternMeaning.{product_of_sizes, gives, pattern_dead, PatternDecidesForEveryModel};
ghost use Rattle.detectors.specs.Cuts.{cut_of, cut_move};
ghost use Rattle.detectors.specs.CutWalk.{cut_off};
ghost use Rattle.model.specs.Records.{row_of_model};
ghost use Rattle.detectors.specs.WorkedVerdicts.{WorkedPatternVerdicts};
ghost use Rattle.std.proofs.lemmas.Bool.{and_parts};
ghost use Rattle.model.proofs.SealedModel.{model_sealed};

use super::Pattern;
use crate::pattern::operands::choose_variables;
use crate::pattern::table::dead_cuts;
use crate::pattern::variables::Variables;
use crate::unmade::Unmade;
use detector::Detector;
use detector::verdict::Verdict;
use model::row::Row;
use model::sealed::Model;
use std::alloc::{AllocError, Global};

impl Pattern {
    /// The pattern over the variables that the operands give: one to three of the model's, rising, whose sizes multiply to at
    /// most 512; behind them 255, which gives none. With other operands the model is given back.
    #[tactic(auto, using(crate::proofs::PatternLaws::pattern_lawful, crate::proofs::PatternLaws::pattern_decides, crate::proofs::PatternLaws::pattern_decides_for_every_model, crate::proofs::WorkedVerdicts::worked_pattern_verdicts))]
    pub fn over(
        heap: Global,
        model: Model,
        operands: [u8; 3],
    ) -> Result<Result<Pattern, Unmade>, AllocError>
        ensures answer { IfOk result (λ a. chosen_or_refused a ≡ pattern_answer (recorded model).variables (slice_index operands 0) (slice_index operands 1) (slice_index operands 2)) }
        ensures model { IfOk result (λ a. carried_or_back a ≡ recorded model) }
        ensures lawful { IfOk result MadeLawful }
        ensures decides { IfOk result MadeDecides }
        ensures decides_for_every_model { PatternDecidesForEveryModel }
        ensures worked { WorkedPatternVerdicts }
    {
        match choose_variables(&model, operands) {
            Ok(variables) => Ok(Ok(Pattern::of(heap, model, variables)?)),
            Err(refusal) => Ok(Err(Unmade { model, refusal })),
        }
    }

    /// The pattern over variables whose sizes multiply to at most 512.
    fn of(heap: Global, model: Model, variables: Variables) -> Result<Pattern, AllocError>
        requires { product_of_sizes (recorded model).variables variables ≤ 512 }
        ensures variables { IfOk result (λ p. pattern_variables p ≡ variables) }
        ensures model { IfOk result (λ p. pattern_model p ≡ recorded model) }
    {
        let dead_cuts = dead_cuts(heap, &model, &variables)?;
        Ok(Pattern {
            model,
            variables,
            dead_cuts,
        })
    }

    /// Whether the cut of the row is dead, which the table tells.
    #[tactic(auto, using(crate::proofs::CutTables::table_tells))]
    fn cuts_off(&self, row: &Row) -> bool
        requires fits { row_of_model (pattern_model self.now) row.now ≡ true }
        requires given { gives row.now (pattern_variables self.now) ≡ true }
        ensures { result ≡ cut_off (map (cut_move (pattern_variables self.now)) (pattern_model self.now).moves) (cut_of (pattern_variables self.now) (pattern_model self.now).goal) (cut_of (pattern_variables self.now) row.now) }
    {
        let number = self.variables.cut(row).number();
        self.dead_cuts.get(number).copied().unwrap_or(false)
    }
}

impl Detector for Pattern {
    ghost carried = { pattern_model };

    ghost dead = { λ p. pattern_dead (pattern_model p) (pattern_variables p) };

    ghost sealed = { λ p. model_sealed p.model };

    ghost within = { λ p t dead. (and_parts _ _ dead).0 };

    fn model(&self) -> &Model {
        &self.model
    }

    fn verdict(&self, row: &Row) -> Verdict {
        Verdict::dead_if(self.model.fits(row) && self.variables.given_by(row) && self.cuts_off(row))
    }
}
