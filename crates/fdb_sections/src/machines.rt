//! Roles that run, each as one value: it takes messages, and hands out what is to be sent.
pub(crate) mod commit_proxy;
pub(crate) mod pull;
pub(crate) mod read_version_proxy;
pub(crate) mod resolver;
