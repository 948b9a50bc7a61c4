// The CPU-priority record.
pub use levels::record::{CPUS, LEVELS, Record, WORDS};
