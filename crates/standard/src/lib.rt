//! Semantic Versioning 2.0.0: its grammar and its precedence, and what is shown of the meaning of Ideal labels.
#![tactic(auto)]

ghost use Rattle.standard.specs.Chain.{ChainStands};

/// The standard's own example: each label of its chain is an Ideal, with lower precedence than the next.
pub fn chain_stands() -> u8
    ensures { ChainStands }
{
    0
}
