// Parts of schema nodes that hold no node: what stands behind the kind byte of a node without children, and the tables of a union.
#![tactic(auto)]

mod leaf;
mod table;

pub use leaf::leaf_check;
pub use table::tables_check;
