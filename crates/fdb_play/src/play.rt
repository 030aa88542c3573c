pub mod driving;
pub mod script;
pub mod showing;
