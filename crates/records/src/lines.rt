// Lines of numbers.
ghost use Rattle.std.specs.Prelude.{◌≡◌};
ghost use Rattle.std.specs.Float.{binary64};
ghost use Rattle.std.specs.Float.Ieee.{of_bits};
ghost use Rattle.records.specs.Records.{WholesRead, RealsRead, wholes_compared, reals_compared, Met};

use crate::text::Text;
use double::Decoded;

// The double of 64 bits. (Not std's `from_bits`: it asks for no NaN.)
fn real(bits: usize) -> f64
    ensures { result ≡ of_bits binary64 bits }
{
    match double::from_bits(bits as u64) {
        Decoded::Finite(x) => x,
        Decoded::Infinite(below) => { if below { -1.0 / 0.0 } else { 1.0 / 0.0 } }
        Decoded::NotANumber => 0.0 / 0.0,
    }
}

// Two functions that read and two that compare: one for both would say of every call of a closure what it reads, and is no shorter.
impl<'a> Text<'a> {
    // A line of as many decimal numbers as the list has, put into it.
    pub fn wholes(&mut self, word: &[u8], into: &mut [usize])
        ensures { WholesRead self.old self.new word.now into.old into.new }
    {
        self.word(word);
        for x in into.iter_mut() {
            *x = self.whole();
        }
        self.end();
    }

    // A line of doubles, put into the list.
    pub fn reals(&mut self, word: &[u8], into: &mut [f64])
        ensures { RealsRead self.old self.new word.now into.old into.new }
    {
        self.word(word);
        for x in into.iter_mut() {
            *x = real(self.bits());
        }
        self.end();
    }

    // The rest of a line of decimal numbers, compared with some. (Of a broken list it is promised too whether the numbers so far are the same.)
    pub fn same_wholes(&mut self, numbers: &[usize]) -> bool
        ensures { Met self.old self.new (wholes_compared self.old.input.now self.old.at numbers.now) result }
    {
        let mut same = true;
        for number in numbers {
            let whole = self.whole();
            same &= whole == *number;
        }
        self.end();
        same
    }

    // A line of doubles, compared bit for bit with some.
    pub fn same_reals(&mut self, word: &[u8], numbers: &[f64]) -> bool
        ensures { Met self.old self.new (reals_compared self.old.input.now self.old.at word.now numbers.now) result }
    {
        self.word(word);
        let mut same = true;
        for number in numbers {
            let bits = self.bits();
            same &= bits == double::to_bits(*number) as usize;
        }
        self.end();
        same
    }
}
