// A set of task numbers, 64 to a word.
ghost use Rattle.std.specs.Prelude.{◌≡◌, true, not, ℕ, ◌+◌, ◌<◌, eqb, length};
ghost use Rattle.bits.specs.Bit.{digit};
ghost use Rattle.rules.specs.Machine.{task_places};
ghost use Rattle.rowcheck.specs.Placed.{set_words, marked, mark};

const BITS: usize = 64;

pub const WORDS: usize = 8;

// Puts a task into the set; false if it is there already.
pub fn add(marks: &mut [u64; WORDS], task: usize) -> bool
    requires marks_len { length marks.old ≡ set_words }
    requires task_lt_task_places { task < task_places }
    ensures value { result ≡ not (marked marks.old task) }
    ensures joined { result ≡ true → (length marks.new ≡ set_words)
        × ((u : ℕ) → mark marks.new u ≡ mark marks.old u + digit (eqb u task)) }
{
    let word = task / BITS;
    let old = marks[word];
    if bits::test_bit(old, task % BITS) {
        return false;
    }
    marks[word] = bits::set_bit(old, task % BITS);
    true
}

// Whether a task is in the set.
pub fn has(marks: &[u64; WORDS], task: usize) -> bool
    requires { task < task_places }
    ensures { result ≡ marked marks.now task }
{
    bits::test_bit(marks[task / BITS], task % BITS)
}
