//! Runs over sources, sinks and keepers in memory. The tests stand in a crate of their own, so that
//! `session_runner` isn't proved again for them.
#![tactic(auto)]

#[cfg(test)]
mod client_rows;
#[cfg(test)]
mod failing_keeper_rows;
#[cfg(test)]
mod history_rows;
#[cfg(test)]
mod keeper_rows;
#[cfg(test)]
mod lock_rows;
#[cfg(test)]
mod operation_rows;
#[cfg(test)]
mod range_rows;
#[cfg(test)]
mod refused_rows;
#[cfg(test)]
mod running;
#[cfg(test)]
mod tests;
