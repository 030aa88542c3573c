// What a session keeps of its transactions.
pub(crate) mod note;
pub(crate) mod read;
pub(crate) mod session;
pub(crate) mod sessions;
