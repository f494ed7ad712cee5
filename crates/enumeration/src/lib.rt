// What the solutions of a block show of its groups, and enumeration, which finds what is the same in all. specs/Enumeration.antt says what it finds,
// specs/ThreeRules.antt how the three rules are tried one after another.
#![tactic(auto)]

pub mod asking;
pub mod enumerate;
