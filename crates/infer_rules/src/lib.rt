// The inferred sort of a term.

// Operators whose inferred sort is found in the same way (the arms of Pool::compute_sort).
#![tactic(auto)]

#[derive(Clone, Copy, Debug, PartialEq, Eq)]
pub enum Family {
    // Bool, Int, Real, String and RegLan, whatever the arguments.
    Truth,
    Integer,
    Decimal,
    Text,
    Regular,
    // The group of nineteen: the first vector of known width.
    Vector,
    // A vector of width 1; of as many bits as there are arguments; of the width that the second argument writes.
    OneBit,
    Bits,
    Constant,
    // All widths added up.
    Concat,
    // The sort of the first, the second or the last argument.
    First,
    Second,
    Last,
    // Real if an argument is Real, else Int.
    Sum,
    // The element sort of an Array.
    Element,
    // The first argument's sort, or the variable `?`.
    RareList,
    // A Set of the argument's sort, a Tuple of the arguments' sorts, the Tuple without parts.
    Singleton,
    Tuple,
    UnitTuple,
    // Relations: columns backwards; joined without the shared columns; side by side.
    Transpose,
    Join,
    Product,
}
