//! Tests of lock modes, of the lock table and of the line of claims, through their public calls.
//!
//! Promises: nothing; it has no public function.
//! Only tested: the tables of modes, lock sets, worked lines, random lines against a plain program, and each memory request refused.
//! Stands on: lock_modes, lock_table, long_locks, and what these stand on.
//! Start at: line/calls.rt and table/calls.rt for what a row may say; line/random_lines.rt for the plain program.
#![tactic(auto)]

#[cfg(test)]
mod line;
#[cfg(test)]
mod modes;
#[cfg(test)]
mod places;
#[cfg(test)]
mod table;
