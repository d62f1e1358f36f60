//! An access table over ports: which label a port is allowed with, by the last rule on it.

pub mod port;
pub mod table;

pub use port::Port;
pub use table::AccessTable;
