// The record's four tables, lent.
pub use levels::lent::set_level;
