// Greatest and least of a list, by the comparison of its elements' type.
#![tactic(auto)]

ghost use Rattle.order.specs.Extremes.{Greatest, Least, precedes};

// An element that none exceeds; none for an empty list.
// Here and below references are compared: a search over copies writes one at each step, and takes twice the time.
pub fn greatest<T: Ord + Copy>(xs: &[T]) -> Option<T>
    ensures { Greatest (precedes T.cmp) xs.now result }
{
    xs.iter().max().copied()
}

// An element that none falls below; none for an empty list.
pub fn least<T: Ord + Copy>(xs: &[T]) -> Option<T>
    ensures { Least (precedes T.cmp) xs.now result }
{
    xs.iter().min().copied()
}
