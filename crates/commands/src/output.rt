// Bytes put one behind another: numbers, and the lines that are made of them.
ghost use Rattle.std.specs.Prelude.{[], ◌∷◌, length};
ghost use Rattle.commands.specs.Text.{number_text, field_text, line_text, refusal_text};
ghost use Rattle.commands.specs.Output.{Appended, HasRoom};

// Where the answers go, and how far it is filled.
#[derive(Drop)]
pub struct Output<'a> {
    pub bytes: &'a mut [u8],
    // the place of the next byte
    pub at: usize,
}

impl Output<'_> {
    // One byte.
    pub fn byte(&mut self, byte: u8)
        requires { HasRoom self.old 1 }
        ensures { Appended self.old (byte ∷ []) self.new }
    {
        self.bytes[self.at] = byte;
        self.at += 1;
    }

    // The decimal digits of a number, without leading zeros: those of its tenth, then its last.
    fn digits(&mut self, value: u64)
        requires { HasRoom self.old (length (number_text value)) }
        ensures { Appended self.old (number_text value) self.new }
    {
        if value < 10 {
            return self.byte(b'0' + value as u8);
        }
        self.digits(value / 10);
        self.byte(b'0' + (value % 10) as u8);
    }

    // A space and a number.
    #[tactic(auto, using(crate::proofs::TextLaws::append_more), unfolding(crate::specs::Text::field_text))]
    fn field(&mut self, value: u64)
        requires { HasRoom self.old (length (field_text value)) }
        ensures { Appended self.old (field_text value) self.new }
    {
        self.byte(b' ');
        self.digits(value);
    }

    // A line of a letter and numbers.
    pub fn line(&mut self, letter: u8, values: &[u64])
        requires { HasRoom self.old (length (line_text letter values.now)) }
        ensures { Appended self.old (line_text letter values.now) self.new }
    {
        self.byte(letter);
        for &value in values {
            self.field(value);
        }
        self.byte(b'\n');
    }

    // A refusal: the letter, `!` and the number.
    #[tactic(auto, unfolding(crate::specs::Text::field_text, crate::specs::Text::refusal_text))]
    pub fn refusal(&mut self, letter: u8, number: u32)
        requires { HasRoom self.old (length (refusal_text letter number)) }
        ensures { Appended self.old (refusal_text letter number) self.new }
    {
        self.byte(letter);
        self.byte(b' ');
        self.byte(b'!');
        self.field(u64::from(number));
        self.byte(b'\n');
    }
}
