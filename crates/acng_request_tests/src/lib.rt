//! The public calls of `acng_request`, run over tables of heads.
#![tactic(auto)]

#[cfg(test)]
mod heads;
#[cfg(test)]
mod lengths;
#[cfg(test)]
mod pipelines;
#[cfg(test)]
mod replies;
