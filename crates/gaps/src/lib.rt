// The gap table of one yard as the code has it. What it means, and what each call does with it, stands in specs/.
#![tactic(auto)]

// The gap table: row x, column y has the limit of the pair x, y.
pub type Gaps = [[i64; meaning::YARD_STEPS]; meaning::YARD_STEPS];
