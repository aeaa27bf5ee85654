// The default of a schema's field: whether it is a value, and one that a default may be.
#![tactic(auto)]

mod default;

pub use default::default_check;
