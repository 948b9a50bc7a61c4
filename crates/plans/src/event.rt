// An event, as its five numbers.
#[derive(Clone, Copy)]
pub struct Event {
    pub kind: u32,
    pub who: u32,
    pub a: u32,
    pub b: u32,
    pub mask: u64,
}
