// Words and numbers of a text.
ghost use Rattle.std.specs.Prelude.{◌≡◌, ◌≤◌, ◌^◌, length, drop, Some};
ghost use Rattle.records.specs.Records.{stepped, worded, digit_of, digit_at, digits, valued, number_at, decimal_at, hex_at, moved, Took};

// A text that is read from its front, and the place that is read next. Where it is not what it must be, the place is lost: None, and stays so.
// (No `?` at the callers: what a broken number leaves, and what is read after it, is promised, since a list stores it.)
#[derive(Drop)]
pub struct Text<'a> {
    input: &'a [u8],
    pub at: Option<usize>,
}

// The value of some digits, and how many they are.
#[derive(Clone, Copy)]
struct Digits {
    value: usize,
    count: usize,
}

// The value of a lower-case hex digit.
#[tactic(auto, using(std::proofs::lemmas::Bool::Decides::nat_tests), unfolding(crate::specs::Records::digit_of))]
fn digit(byte: u8) -> Option<u8>
    ensures { result ≡ digit_of byte }
{
    match byte {
        b'0'..=b'9' => Some(byte - b'0'),
        b'a'..=b'f' => Some(10 + (byte - b'a')),
        _ => None,
    }
}

// The value of the digit of a base at a place.
#[tactic(auto, using(std::proofs::lemmas::Bool::Decides::nat_tests), unfolding(crate::specs::Records::digit_at))]
fn digit_at(text: &[u8], at: usize, base: usize) -> Option<usize>
    ensures { result ≡ digit_at base text.now at }
{
    let value = digit(*text.get(at)?)? as usize;
    if value < base { Some(value) } else { None }
}

// The digits at the front of a text, `most` of them at most. (Not std's `from_str_radix`: it takes a sign and capitals, and refuses a text that goes on.)
fn read_digits(text: &[u8], base: usize, most: usize) -> Digits
    requires { base ^ most ≤ 2 ^ 64 }
    ensures { (result.value ≡ valued base 0 (digits base most text.now))
        × (result.count ≡ length (digits base most text.now)) }
{
    let mut value = 0usize;
    for count in 0..most {
        let Some(next) = digit_at(text, count, base) else {
            return Digits { value, count };
        };
        value = base * value + next;
    }
    Digits { value, count: most }
}

// The text from a place on.
fn rest(input: &[u8], at: usize) -> &[u8]
    ensures { result.now ≡ drop at input.now }
{
    if at <= input.len() {
        return &input[at..];
    }
    &[]
}

// The place after one byte, which must be the wanted one.
#[tactic(auto, using(std::proofs::lemmas::Bool::Decides::nat_tests), unfolding(crate::specs::Records::stepped))]
fn step(input: &[u8], at: Option<usize>, wanted: u8) -> Option<usize>
    ensures { result ≡ stepped input.now at wanted }
{
    let at = at?;
    if at < input.len() && input[at] == wanted {
        Some(at + 1)
    } else {
        None
    }
}

impl<'a> Text<'a> {
    pub fn new(input: &'a [u8], at: usize) -> Text<'a>
        ensures { (result.input.now ≡ input.now) × (result.at ≡ Some at) }
    {
        Text {
            input,
            at: Some(at),
        }
    }

    // One byte, which must be the wanted one.
    fn byte(&mut self, wanted: u8)
        ensures { self.new ≡ moved self.old (stepped self.old.input.now self.old.at wanted) }
    {
        self.at = step(self.input, self.at, wanted);
    }

    // By its bytes: `starts_with` would need a rest of the text beside the place, and is no shorter.
    pub fn word(&mut self, word: &[u8])
        ensures { self.new ≡ moved self.old (worded self.old.input.now self.old.at word.now) }
    {
        for wanted in word {
            self.byte(*wanted);
        }
    }

    // The end of a line.
    pub fn end(&mut self)
        ensures { self.new ≡ moved self.old (stepped self.old.input.now self.old.at 10) }
    {
        self.byte(b'\n');
    }

    // A space and a number of `least` to `most` digits.
    fn number(&mut self, base: usize, least: usize, most: usize) -> usize
        requires { base ^ most ≤ 2 ^ 64 }
        ensures { Took self.old self.new (number_at base least most self.old.input.now self.old.at) result }
    {
        let Some(start) = step(self.input, self.at, b' ') else {
            self.at = None;
            return 0;
        };
        let found = read_digits(rest(self.input, start), base, most);
        if found.count < least {
            self.at = None;
        } else {
            self.at = Some(start + found.count);
        }
        found.value
    }

    // A space and a decimal number, of 19 digits at most.
    pub fn whole(&mut self) -> usize
        ensures { Took self.old self.new (decimal_at self.old.input.now self.old.at) result }
    {
        self.number(10, 1, 19)
    }

    // A space and 16 hex digits.
    pub fn bits(&mut self) -> usize
        ensures { Took self.old self.new (hex_at self.old.input.now self.old.at) result }
    {
        self.number(16, 16, 16)
    }
}
