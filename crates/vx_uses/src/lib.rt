//! Worked uses of the crates below, a module for each: where a reader sees how a crate is called.
//!
//! The contracts say what each call does, and no test says it again. The tests here say what no contract does: a call that
//! finds memory does not run out of it, a generic item works at a type, a text or a number is the one that the manual or
//! the language of scripts gives.
#![tactic(auto)]

#[cfg(test)]
mod ast;
#[cfg(test)]
mod base;
#[cfg(test)]
mod carrier;
#[cfg(test)]
mod chans;
#[cfg(test)]
mod check;
#[cfg(test)]
mod clusters;
#[cfg(test)]
mod commands;
#[cfg(test)]
mod endings;
#[cfg(test)]
mod exec;
#[cfg(test)]
mod exits;
#[cfg(test)]
mod explore;
#[cfg(test)]
mod flags;
#[cfg(test)]
mod frames;
#[cfg(test)]
mod grammar;
#[cfg(test)]
mod host;
#[cfg(test)]
mod image;
#[cfg(test)]
mod judge;
#[cfg(test)]
mod judge_boxes;
#[cfg(test)]
mod judge_completions;
#[cfg(test)]
mod mailbox;
#[cfg(test)]
mod meeting;
#[cfg(test)]
mod names;
#[cfg(test)]
mod quota;
#[cfg(test)]
mod record;
#[cfg(test)]
mod reqs;
#[cfg(test)]
mod table;
#[cfg(test)]
mod text;
#[cfg(test)]
mod timers;
#[cfg(test)]
mod turn;
#[cfg(test)]
mod units;
