// Texts put one behind the other. Where one has no room, the offset answered is past the buffer's end and stays there.
ghost use Rattle.std.specs.Prelude.{◌++◌};
ghost use Rattle.xsd_written.specs.Decimal.{decimal};
ghost use Rattle.xsd_write.specs.Texts.{quoted_value};
ghost use Rattle.xsd_write.specs.Puts.{Writes};

use crate::decimal::spell;
use plain_bytes::copy_bytes;
use text::has_byte;

// A text put together in a lent buffer: `at` is the offset behind it. Where a part has no room, `at` is past the buffer's end and stays there.
#[derive(Drop)]
pub struct Writer<'a> {
    pub out: &'a mut [u8],
    pub at: usize,
}

impl Writer<'_> {
    pub fn put(&mut self, part: &[u8])
        ensures { Writes part.now self.old self.new }
    {
        if self.out.len() < self.at {
            return;
        }
        if self.out.len() - self.at < part.len() {
            self.at = self.out.len() + 1;
            return;
        }
        let end = self.at + part.len();
        copy_bytes(&mut self.out[self.at..end], part);
        self.at = end;
    }

    fn put_between(&mut self, left: &[u8], part: &[u8], right: &[u8])
        ensures { Writes (left.now ++ (part.now ++ right.now)) self.old self.new }
    {
        self.put(left);
        self.put(part);
        self.put(right);
    }

    // "quotes double unless the value has one"
    pub fn put_value(&mut self, key: &[u8], value: &[u8])
        ensures { Writes (key.now ++ quoted_value value.now) self.old self.new }
    {
        self.put(key);
        if has_byte(value, 34) {
            self.put_between(b"'", value, b"'");
        } else {
            self.put_between(b"\"", value, b"\"");
        }
    }

    pub fn put_number(&mut self, key: &[u8], n: u64)
        ensures { Writes (key.now ++ quoted_value (decimal n)) self.old self.new }
    {
        let spelled = spell(n);
        let digits = spelled.digits;
        let from = spelled.from;
        self.put_value(key, &digits[from..]);
    }
}
