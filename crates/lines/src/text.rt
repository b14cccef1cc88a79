// Text stored in a lent buffer: words and numbers, one behind the other.
ghost use Rattle.std.specs.Prelude.{◌+◌, ◌≤◌, ◌++◌, length};
ghost use Rattle.lines.specs.Text.{decimal, HasRoom, Adds};

use itoa::Buffer;

// The buffer, and the index behind what is stored.
// kept: the room that a line asks for, since it shrinks with each word.
#[derive(Drop)]
pub(crate) struct Text<'a> {
    pub(crate) out: &'a mut [u8],
    pub(crate) at: usize,
}

impl Text<'_> {
    // A word is a short constant, and in place its copy is a store.
    #[inline(always)]
    pub(crate) fn word(&mut self, word: &[u8])
        requires { HasRoom self.old (length word.now) }
        ensures { Adds self.old word.now self.new }
    {
        let end = self.at + word.len();
        self.out[self.at..end].copy_from_slice(word);
        self.at = end;
    }

    // A number in decimal. Ten digits are enough for 32 bits. Most numbers have one, for which
    // nothing is called.
    #[inline]
    pub(crate) fn number(&mut self, n: u32)
        requires { HasRoom self.old 10 }
        ensures { Adds self.old (decimal n) self.new × (self.new.at ≤ self.old.at + 10) }
    {
        if n < 10 {
            self.word(&[b'0' + n as u8]);
        } else {
            self.word(Buffer::new().format(n).as_bytes());
        }
    }

    // A word, and then a number.
    #[inline(always)]
    pub(crate) fn both(&mut self, word: &[u8], n: u32)
        requires { HasRoom self.old (length word.now + 10) }
        ensures { Adds self.old (word.now ++ decimal n) self.new
            × (self.new.at ≤ self.old.at + length word.now + 10) }
    {
        self.word(word);
        self.number(n);
    }
}
