// A line of the table: its first five words, each as one number. A word of digits is its decimal; any other is its
// bytes, the last one least.
#[derive(Clone, Copy)]
pub(crate) struct Words {
    // the number of the line, the first is 1
    pub line: u64,
    // how many words came before the one that is being read, 255 for more; and what it is so far
    pub count: u8,
    pub now: u64,
    pub word: u64,
    pub a: u64,
    pub b: u64,
    pub c: u64,
    pub d: u64,
}

impl Words {
    pub(crate) fn none(line: u64) -> Words {
        Words {
            line,
            count: 0,
            now: 0,
            word: 0,
            a: 0,
            b: 0,
            c: 0,
            d: 0,
        }
    }

    pub(crate) fn next_line(self) -> Words {
        Words::none(self.line.wrapping_add(1))
    }

    // With a byte more of the word that is being read.
    pub(crate) fn longer(self, byte: u8) -> Words {
        let mut w = self;
        w.now = grown(self.now, byte);
        w
    }

    // The word that was being read is at its end.
    pub(crate) fn parted(self) -> Words {
        let mut w = self;
        match self.count {
            0 => w.word = self.now,
            1 => w.a = self.now,
            2 => w.b = self.now,
            3 => w.c = self.now,
            4 => w.d = self.now,
            _ => {}
        }
        w.now = 0;
        w.count = self.count.saturating_add(1);
        w
    }
}

// A digit behind a decimal; 0 once that does not fit.
fn decimal(now: u64, digit: u8) -> u64 {
    match now.checked_mul(10) {
        Some(tens) => tens.checked_add(u64::from(digit)).unwrap_or(0),
        None => 0,
    }
}

// A byte behind a word, which keeps its last eight.
fn grown(now: u64, byte: u8) -> u64 {
    if byte.is_ascii_digit() {
        return decimal(now, byte - b'0');
    }
    (now << 8) | u64::from(byte)
}
