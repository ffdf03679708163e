//! Tests of the public calls that make, find, check and run pages of the code pool. Each file has one subject.
#![tactic(auto)]

#[cfg(test)]
mod arrivals;
#[cfg(test)]
mod dumps;
#[cfg(test)]
mod page_maps;
#[cfg(test)]
mod pool_pages;
#[cfg(test)]
mod recycling;
#[cfg(test)]
mod restarts;
#[cfg(test)]
mod runs;
#[cfg(test)]
mod support;
#[cfg(test)]
mod tables;
