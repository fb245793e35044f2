//! Walks through the public calls of `acng_cli`, apart from the crate so that its functions aren't proved a second time.
#![tactic(auto)]

#[cfg(test)]
mod cache;
#[cfg(test)]
mod failing;
#[cfg(test)]
mod maint;
#[cfg(test)]
mod requests;
