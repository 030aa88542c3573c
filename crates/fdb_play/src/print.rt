pub mod answers;
pub mod endings;
pub mod sets;
pub mod texts;
