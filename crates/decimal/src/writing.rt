// Bytes, numbers in base ten and lines, written into a buffer one behind the other. The buffer is the caller's, so that nothing is allocated; and by hand, since `write!`
// has an `Err` for a full buffer, which cannot be here.
ghost use Rattle.std.specs.Prelude.{◌≡◌, ◌+◌, ◌≤◌, length};
ghost use Rattle.decimal.specs.Decimal.{decimal, line};
ghost use Rattle.decimal.specs.Buffer.{Appended};

// A buffer that the caller lends, and the index behind what is written into it. Each contract says `same_buffer`: no type says that it stays the buffer that was lent.
#[derive(Debug, Drop)]
pub struct Output<'a> {
    pub buffer: &'a mut [u8],
    pub end: usize,
}

impl Output<'_> {
    // The bytes as they are.
    pub fn put(&mut self, bytes: &[u8])
        requires { self.old.end + length bytes.now ≤ length self.old.buffer.now }
        ensures same_buffer { self.new.buffer.ghost_name ≡ self.old.buffer.ghost_name }
        ensures put { Appended self.old.buffer.now self.old.end self.new.buffer.now self.new.end bytes.now }
    {
        octets::copy(self.buffer, self.end, bytes);
        self.end += bytes.len();
    }

    // The number in base ten. The recursion is as deep as it has digits.
    pub fn put_decimal(&mut self, number: usize)
        requires { self.old.end + length (decimal number) ≤ length self.old.buffer.now }
        ensures same_buffer { self.new.buffer.ghost_name ≡ self.old.buffer.ghost_name }
        ensures put { Appended self.old.buffer.now self.old.end self.new.buffer.now self.new.end (decimal number) }
    {
        let digit = [b'0' + (number % 10) as u8];
        if 10 <= number {
            self.put_decimal(number / 10);
        }
        self.put(&digit);
    }

    // Words and a number.
    pub fn put_line(&mut self, words: &[u8], number: usize)
        requires { self.old.end + length (line words.now number) ≤ length self.old.buffer.now }
        ensures same_buffer { self.new.buffer.ghost_name ≡ self.old.buffer.ghost_name }
        ensures put { Appended self.old.buffer.now self.old.end self.new.buffer.now self.new.end (line words.now number) }
    {
        self.put(words);
        self.put_decimal(number);
        self.put(b"\n");
    }
}
