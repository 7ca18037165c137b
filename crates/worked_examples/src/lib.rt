//! Worked examples, proved from the definitions that the contracts cite.
#![tactic(auto)]

ghost use Rattle.worked_examples.specs.Examples.{Examples};

/// The table of worked examples holds.
pub fn examples_hold()
    ensures { Examples }
{}
