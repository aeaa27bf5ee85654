// Schema frames: reading them, and what is sound in them.
#![tactic(auto)]

mod check;
mod names;
mod plain;
mod skip;
mod whole;

pub use check::schema_check;
pub use skip::{field_len, schema_len};
pub use whole::schema_frame;
