//! Tests of the public calls of the crates from the rewriter's templates to the run, but for the code pool. Each file has
//! one subject.
#![tactic(auto)]

#[cfg(test)]
mod crossings;
#[cfg(test)]
mod generated;
#[cfg(test)]
mod guarded_memory;
#[cfg(test)]
mod heap;
#[cfg(test)]
mod services;
#[cfg(test)]
mod tasks;
#[cfg(test)]
mod templates;
#[cfg(test)]
mod texts;
#[cfg(test)]
mod turns;
