// The record, the control state, budgets and the call: a job's run that can be cut anywhere.
#![tactic(auto)]

pub mod answers; // what a call says
pub mod records; // where a job stands between two calls
pub mod control; // the control state: begin, step, finish
pub mod calls; // the call by value
pub mod host; // the call for C hosts, over a record that is lent
mod checks; // 2 and 3: the lengths, and whether a record is possible
mod strides; // instructions of one step each, as many as follow one another
mod performs; // steps of one instruction: from its start, or going on
mod advances; // as many steps as the budget allows
mod fetches; // the instruction that comes next
