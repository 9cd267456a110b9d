ghost use Rattle.order.specs.Extremes.{Compares};
ghost use Rattle.values.specs.Numbers.{RefusalLaws};
ghost use Rattle.values.specs.Proposals.{ProposalLaws, sooner, lower};
ghost use Rattle.values.specs.Times.{TimestampLaws, before};

use crate::decision::{Outcome, Proposal};
use crate::timestamp::Timestamp;

// What layers above may rest on, whatever the values are made of. It does nothing: its contract is the laws.
pub fn values_stand()
    ensures timestamps { TimestampLaws }
    ensures proposals { ProposalLaws }
    ensures refusals { RefusalLaws }
    // the types' own comparisons are those orders
    ensures outcomes_compare { Compares sooner ⟦<Outcome as Ord>⟧.cmp }
    ensures proposals_compare { Compares lower ⟦<Proposal as Ord>⟧.cmp }
    ensures timestamps_compare { Compares before ⟦<Timestamp as Ord>⟧.cmp }
{}
