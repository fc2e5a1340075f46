// Links between nodes, each kept once and in order.
#![tactic(auto)]

pub mod answer;
pub mod table;
