// Tests of what is told of cloth: its floats, how few shafts and treadles would do, which are alike, and what lies over all else.
#![tactic(auto)]

#[cfg(test)]
mod cloth;
