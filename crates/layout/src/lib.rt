// Shares over any layout of their head: what they are, and what any bytes are. Mathematics alone.
#![tactic(auto)]
