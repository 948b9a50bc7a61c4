// Whether a record is consistent in itself.
pub use consistency::is_consistent;
