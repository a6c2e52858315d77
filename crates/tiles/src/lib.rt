// Why a system of shifted sums can be solved in whole runs: tile by tile, and in a tile by divided differences, for any letter and any shifts whose rows
// are even. This crate is mathematics alone and has no function.
#![tactic(auto)]
