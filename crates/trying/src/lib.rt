// Which of the present nodes is wrong, found out by tries: a file is recovered from the first k+1 nodes without one of them, and compared with all.
#![tactic(auto)]

pub mod search;
