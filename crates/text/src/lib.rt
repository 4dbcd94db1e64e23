// What the programs print, as bytes: numbers, bytes and lines, put one after another into a lent text.
//
// Every method takes any text. What has no place in it is not stored, and all of it is then spelled: a text that is too short ends early, and
// nothing else happens. So numbers are put by hand and not by `write!`, which answers an error there, and the text is a lent slice and no
// `String`, which can run out of memory.
#![tactic(auto)]

ghost use Rattle.std.specs.Prelude.{[], ◌∷◌, ◌≤◌, ◌%◌, ◌≡◌, length};
ghost use Rattle.text.specs.Numbers.{decimal, hex_digit, hex_byte, hex};
ghost use Rattle.text.specs.Lines.{line_end, number_field, hex_field, entry_text, entry_line, end_line, entry_length};
ghost use Rattle.text.specs.Texts.{Puts};

// A lent text, and how much of it is spelled: the bytes before this place.
#[derive(Drop)]
pub struct Text<'a> {
    bytes: &'a mut [u8],
    at: usize,
}

impl<'a> Text<'a> {
    // A text of which nothing is spelled yet.
    pub fn new(bytes: &'a mut [u8]) -> Text<'a>
        ensures same_reference { result.bytes.ghost_name ≡ bytes.entry.ghost_name }
        ensures bytes { result.bytes.now ≡ bytes.old }
        ensures place { result.at ≡ 0 }
    {
        Text { bytes, at: 0 }
    }

    // A text of which the bytes before a place are spelled: what is put stands from there on. Nothing is ever stored at a place behind the
    // text's end, and such a place stays.
    pub fn spelled_to(bytes: &'a mut [u8], at: usize) -> Text<'a>
        ensures same_reference { result.bytes.ghost_name ≡ bytes.entry.ghost_name }
        ensures bytes { result.bytes.now ≡ bytes.old }
        ensures place { result.at ≡ at }
    {
        Text { bytes, at }
    }

    // How much of it is spelled.
    pub fn len(&self) -> usize
        ensures { result ≡ self.now.at }
    {
        self.at
    }

    // Puts one byte.
    pub fn put_byte(&mut self, b: u8)
        ensures { Puts self.old (b ∷ []) self.new }
    {
        if self.at < self.bytes.len() {
            self.bytes[self.at] = b;
            self.at += 1;
        }
    }

    // Puts bytes as they are.
    pub fn put_bytes(&mut self, bytes: &[u8])
        ensures { Puts self.old bytes.now self.new }
    {
        for b in bytes {
            self.put_byte(*b);
        }
    }

    // Puts a number in decimal: the digits of its tenth, where it has one, and then its last digit.
    pub fn put_number(&mut self, n: u64)
        ensures { Puts self.old (decimal n) self.new }
    {
        if 10 <= n {
            self.put_number(n / 10);
        }
        self.put_byte(b'0' + (n % 10) as u8);
    }

    // Puts the two digits of a byte.
    fn put_hex_byte(&mut self, byte: u8)
        ensures { Puts self.old (hex_byte byte) self.new }
    {
        self.put_byte(hex_digit(byte / 16));
        self.put_byte(hex_digit(byte % 16));
    }

    // Puts bytes, "two lower-case digits a byte, and a single `-` for no bytes".
    pub fn put_hex(&mut self, bytes: &[u8])
        ensures { Puts self.old (hex bytes.now) self.new }
    {
        if bytes.is_empty() {
            return self.put_byte(b'-');
        }
        for byte in bytes {
            self.put_hex_byte(*byte);
        }
    }

    // Puts the end of a line.
    pub fn put_line_end(&mut self)
        ensures { Puts self.old line_end self.new }
    {
        self.put_byte(b'\n');
    }

    // Puts a space, and then a number.
    pub fn put_number_field(&mut self, n: u64)
        ensures { Puts self.old (number_field n) self.new }
    {
        self.put_byte(b' ');
        self.put_number(n);
    }

    // Puts a space, and then bytes in hexadecimal.
    pub fn put_hex_field(&mut self, bytes: &[u8])
        ensures { Puts self.old (hex_field bytes.now) self.new }
    {
        self.put_byte(b' ');
        self.put_hex(bytes);
    }

    // Puts a record entry: "operation, device, word, in decimal".
    pub fn put_entry(&mut self, op: u16, device: u8, word: u32)
        ensures { Puts self.old (entry_text op device word) self.new }
    {
        self.put_number(u64::from(op));
        self.put_number_field(u64::from(device));
        self.put_number_field(u64::from(word));
    }

    // Puts the line of a record entry. Its numbers are so small that the line is short.
    pub fn put_entry_line(&mut self, op: u16, device: u8, word: u32)
        ensures spelled { Puts self.old (entry_line op device word) self.new }
        ensures short { length (entry_line op device word) ≤ entry_length }
    {
        self.put_entry(op, device, word);
        self.put_line_end();
    }

    // Puts the line `end A C`.
    pub fn put_end_line(&mut self, answer: u8, taken: usize)
        ensures { Puts self.old (end_line answer taken) self.new }
    {
        self.put_bytes(b"end");
        self.put_number_field(u64::from(answer));
        self.put_number_field(taken as u64);
        self.put_line_end();
    }
}

// A hexadecimal digit: `0` to `9`, then `a` to `f`.
fn hex_digit(n: u8) -> u8
    ensures { result ≡ hex_digit (n % 16) }
{
    let last = n % 16;
    if last < 10 {
        b'0' + last
    } else {
        b'a' - 10 + last
    }
}
