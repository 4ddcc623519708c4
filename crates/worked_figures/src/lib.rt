// The worked figures of the rules, computed from the definitions that the contracts cite. The functions
// do nothing: what counts is what they ensure.
#![tactic(auto)]

ghost use Rattle.std.specs.Prelude.{◌≡◌};
ghost use Rattle.worked_figures.specs.Table.{computed, expected};
ghost use Rattle.worked_figures.specs.Texts.{computed_texts, expected_texts, computed_lengths, expected_lengths};

/// The whole table of worked figures stands: what the definitions compute is what is expected.
pub fn figures_stand()
    ensures { computed ≡ expected }
{}

/// The worked statements stand, byte by byte.
pub fn texts_stand()
    ensures texts { computed_texts ≡ expected_texts }
    ensures lengths { computed_lengths ≡ expected_lengths }
{}
