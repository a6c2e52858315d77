// What k of the present nodes would send for a recovery, gathered: the first k+1 without one of them, and their pieces where the collector puts them.
#![tactic(auto)]

pub mod collecting;
pub mod kept;
