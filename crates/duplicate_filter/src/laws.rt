ghost use Rattle.duplicate_filter.specs.Laws.{FilterLaws};

use crate::filter::DuplicateFilter;
use link::Link;

// What a filter hands out and what it swallows, over any link. It does nothing: its contract is the laws.
pub fn filter_stands<L: Link>(filter: &DuplicateFilter<L>)
    ensures { FilterLaws L.Link }
{}
