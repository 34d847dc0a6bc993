//! Facts over what all seats know: each step of a seat changes its own view, and a rule speaks of all views at once.
//!
//! Laws, which the rules above cite: specs/Sums.antt, what views add up to; specs/Changes.antt, that one view becomes
//! another, that one is cut in two and that two are put together, each told as a change of a few views among many
//! (`Change`), and that every sum follows it; specs/Others.antt, what holds of each other view where one alone weighs
//! anything; specs/Longer.antt, the longer of two fronts, for two seats that have seen one history; specs/ByNumber.antt,
//! lists of what a function gives for each number below one.
//! Terms: *view*, what a seat knows; it weighs what a function gives it, and a fact across seats is a sum of weights.
#![tactic(auto)]
