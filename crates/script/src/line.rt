// The lines of a script. A line's first byte says what it asks for, and its numbers with what; other words are for the reader.

// The last five numbers of a line, the latest in e; 0 for those that it has not.
#[derive(Clone, Copy)]
pub struct Numbers {
    pub a: u64,
    pub b: u64,
    pub c: u64,
    pub d: u64,
    pub e: u64,
}

impl Numbers {
    pub fn read(line: &[u8]) -> Numbers {
        let mut numbers = Numbers {
            a: 0,
            b: 0,
            c: 0,
            d: 0,
            e: 0,
        };
        // the byte before was a digit of the latest number
        let mut inside = false;
        for byte in line {
            let digit = byte.is_ascii_digit();
            if digit && !inside {
                numbers = numbers.shifted();
            }
            if digit {
                numbers.e = longer(numbers.e, *byte);
            }
            inside = digit;
        }
        numbers
    }

    // Room for another number.
    fn shifted(self) -> Numbers {
        Numbers {
            a: self.b,
            b: self.c,
            c: self.d,
            d: self.e,
            e: 0,
        }
    }
}

// A number with one more digit, unless it would not fit.
fn longer(number: u64, digit: u8) -> u64 {
    if number < u64::MAX / 10 {
        return 10 * number + u64::from(digit.saturating_sub(b'0').min(9));
    }
    number
}

// Numbers in the widths that the machine takes: the largest if one is too large.
pub fn small(x: u64) -> u8 {
    u8::try_from(x).unwrap_or(u8::MAX)
}

pub fn half(x: u64) -> u16 {
    u16::try_from(x).unwrap_or(u16::MAX)
}

pub fn word(x: u64) -> u32 {
    u32::try_from(x).unwrap_or(u32::MAX)
}
