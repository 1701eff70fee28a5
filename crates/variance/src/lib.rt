// The two variance calls: the variance of unknown k from a packed factor (plain) or from a blocked one.
#![tactic(auto)]

mod rules;
mod trailing;

pub use trailing::variance;
