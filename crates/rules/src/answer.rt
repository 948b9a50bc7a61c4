// What an entry answers: 0, or the number of the first check that fails.
pub use refusal::Refusal;

// what C is told of what was accepted
pub const ACCEPTED: u8 = 0;
