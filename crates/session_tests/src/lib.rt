//! The tests of `command_words` and `proxy_cli`, in a crate of their own, so that each of those is proved once.
#![tactic(auto)]

#[cfg(test)]
mod chosen;
#[cfg(test)]
mod consumers;
#[cfg(test)]
mod exchange;
#[cfg(test)]
mod json;
#[cfg(test)]
mod seeks;
#[cfg(test)]
mod sessions;
#[cfg(test)]
mod topics;
#[cfg(test)]
mod words;
