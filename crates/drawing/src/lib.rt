// 02 (l), "Show the wave on the bench screen": the quarter-wave table and drawing, as definitions.
#![tactic(auto)]
