// What a rule on a block set answers, and the direct rule. specs/Found.antt says what a rule makes of blocks, specs/Direct.antt what the direct rule finds and
// leaves; the subtraction rule and enumeration stand on it, and the crate deductions has the calls on a position.
#![tactic(auto)]

pub mod answer;
pub mod direct;
