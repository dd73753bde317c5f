// Text in a lent buffer: bytes, numbers in decimal and names are written one behind the other. Each `put` function writes where there is
// room; a `.._size` function gives the length of what the function beside it writes.
ghost use Rattle.std.specs.Prelude.{◌≡◌, ◌+◌, ◌-◌, ◌*◌, ◌≤◌, ◌<◌, [], ◌∷◌, length};
ghost use Rattle.record.specs.Number.{numbers_at};
ghost use Rattle.printout_sort.specs.Text.{decimal, name_text, more_names};

use record::span::Span;
use store::buffers::copy_at;

// A lent buffer of text: what is written next stands from `end` on, which lies in it or is its end.
#[derive(Drop)]
pub struct TextBuffer<'a> {
    pub bytes: &'a mut [u8],
    pub end: usize,
    pub ghost fits: { end ≤ length bytes.now },
}

impl TextBuffer<'_> {
    ghost use Rattle.printout_sort.specs.Buffer.{HasRoom, Puts, Same};

    // How many bytes are left behind what is written.
    pub fn room(&self) -> usize
        ensures { result ≡ length self.now.bytes.now - self.now.end }
    {
        self.bytes.len() - self.end
    }

    // Writes these bytes.
    pub fn put(&mut self, text: &[u8])
        requires { HasRoom self.old text.now }
        ensures same { Same self.old self.new }
        ensures put { Puts self.old text.now self.new }
    {
        let bytes = &mut *self.bytes;
        copy_at(bytes, self.end, text);
        self.end += text.len();
    }

    // Writes a byte.
    pub fn put_byte(&mut self, byte: u8)
        requires { HasRoom self.old (byte ∷ []) }
        ensures same { Same self.old self.new }
        ensures put { Puts self.old (byte ∷ []) self.new }
    {
        self.bytes[self.end] = byte;
        self.end += 1;
    }

    // Writes a number in decimal.
    pub fn put_decimal(&mut self, v: usize)
        requires { HasRoom self.old (decimal v) }
        ensures same { Same self.old self.new }
        ensures put { Puts self.old (decimal v) self.new }
    {
        let end = self.end + digits(v);
        put_digits(&mut self.bytes[self.end..end], v);
        self.end = end;
    }

    // Writes a name: `?` for 0, else `n` and its number.
    pub fn put_name(&mut self, name: usize)
        requires { HasRoom self.old (name_text name) }
        ensures same { Same self.old self.new }
        ensures put { Puts self.old (name_text name) self.new }
    {
        if name == 0 {
            self.put_byte(b'?');
        } else {
            self.put_byte(b'n');
            self.put_decimal(name);
        }
    }

    // Writes the names of a list, each behind a blank.
    pub fn put_names(&mut self, records: &[u8], names: Span)
        requires within { names.at + 2 * names.count ≤ length records.now }
        requires room { HasRoom self.old (more_names (numbers_at records.now names.at names.count)) }
        ensures same { Same self.old self.new }
        ensures put { Puts self.old (more_names (numbers_at records.now names.at names.count)) self.new }
    {
        for name in names.numbers(records) {
            self.put_byte(b' ');
            self.put_name(name);
        }
    }
}

// How many digits a number has: one more than the power of ten that it reaches; 0 has one too. At most five, where it is under 100,000.
pub fn digits(v: usize) -> usize
    ensures { (result ≡ length (decimal v)) × (v < 100000 → result ≤ 5) }
{
    v.checked_ilog10().unwrap_or(0) as usize + 1
}

// Writes the digits of a number into a slice as long as they are: the last one first, at the slice's end.
fn put_digits(text: &mut [u8], v: usize)
    requires { length text.old ≡ length (decimal v) }
    ensures { text.new ≡ decimal v }
{
    let mut rest = v;
    for i in (0..text.len()).rev() {
        text[i] = b'0' + (rest % 10) as u8;
        rest /= 10;
    }
}

// The length of a name.
pub fn name_size(name: usize) -> usize
    requires { name < 65536 }
    ensures { (result ≡ length (name_text name)) × (result ≤ 6) }
{
    if name == 0 { 1 } else { 1 + digits(name) }
}

// The length of the names of a list, each behind a blank.
pub fn names_size(records: &[u8], names: Span) -> usize
    requires { (names.at + 2 * names.count ≤ length records.now) × (names.count ≤ 64) }
    ensures { (result ≡ length (more_names (numbers_at records.now names.at names.count))) × (result ≤ 448) }
{
    let mut sum = 0;
    for name in names.numbers(records) {
        sum += 1 + name_size(name);
    }
    sum
}
