// Levels of a CPU.
pub use levels::level::Level;
