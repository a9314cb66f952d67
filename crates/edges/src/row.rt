// A row taken apart: NAME NUMBER NUMBER .. : BYTES
ghost use Rattle.std.specs.Prelude.{◌<◌, ◌≤◌};

// The name, of which eight letters count, the numbers, and what stands after the colon, if there is one.
#[derive(Clone, Copy)]
pub struct Row<'a> {
    pub name: &'a [u8],
    numbers: [u32; 22],
    pub given: Option<&'a [u8]>,
}

// The numbers of a row, one after another; 0 where there is none.
#[derive(Clone, Copy)]
pub struct Numbers<'a>(&'a [u32]);

// The value of a hexadecimal digit.
pub fn digit(c: u8) -> u8
    ensures { result < 16 }
{
    if c < b'a' { c % 16 } else { (c % 16 + 9) % 16 }
}

// A number is decimal or, after an x, hexadecimal.
fn number_of(word: &[u8]) -> u32 {
    let mut number = 0u32;
    let mut base = 10;
    for &c in word {
        if c == b'x' {
            base = 16;
        } else {
            number = number.wrapping_mul(base).wrapping_add(u32::from(digit(c)));
        }
    }
    number
}

// The text before the first such byte and that after it, if it is there.
fn split_at_first(text: &[u8], byte: u8) -> (&[u8], Option<&[u8]>) {
    match text.iter().position(|&b| b == byte) {
        Some(at) => (&text[..at], Some(&text[at + 1..])),
        None => (text, None),
    }
}

impl<'a> Row<'a> {
    pub fn new(line: &'a [u8]) -> Self {
        let (call, given) = split_at_first(line, b':');
        let (name, words) = split_at_first(call, b' ');
        // zeros ahead of a name are passed over
        let name = match name.iter().position(|&b| b != 0) {
            Some(at) => &name[at..],
            None => &[],
        };
        let mut numbers = [0; 22];
        if let Some(words) = words {
            for (i, word) in words.split(|&b| b == b' ').enumerate() {
                if let Some(number) = numbers.get_mut(i) {
                    *number = number_of(word);
                } else {
                    // the last 22 count
                    numbers.copy_within(1.., 0);
                    numbers[21] = number_of(word);
                }
            }
        }
        Row {
            name: name.get(..8).unwrap_or(name),
            numbers,
            given,
        }
    }

    pub fn numbers(&self) -> Numbers<'_> {
        Numbers(&self.numbers)
    }
}

impl Numbers<'_> {
    pub fn number(&mut self) -> u32 {
        let Some((&number, rest)) = self.0.split_first() else {
            return 0;
        };
        self.0 = rest;
        number
    }

    pub fn flag(&mut self) -> bool {
        self.number() == 1
    }

    // The lowest 8 bits.
    pub fn byte(&mut self) -> u8 {
        (self.number() % 0x100) as u8
    }

    // The lowest 16 bits.
    pub fn short(&mut self) -> u16 {
        (self.number() % 0x1_0000) as u16
    }

    // At most 64.
    pub fn size(&mut self) -> usize
        ensures { result ≤ 64 }
    {
        64.min(self.number() as usize)
    }

    // Two words of 32 bits, the lower one first.
    pub fn long(&mut self) -> u64 {
        let low = u64::from(self.number());
        u64::from(self.number()) << 32 | low
    }
}
