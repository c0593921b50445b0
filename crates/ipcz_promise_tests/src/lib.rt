//! Tests of the calls that carry the promise, with what docs/PROTOCOL.md says of each; and the recipes of docs/RECIPES.md, by these calls.
#![tactic(auto)]

#[cfg(test)]
mod calls;
#[cfg(test)]
mod recipes;
