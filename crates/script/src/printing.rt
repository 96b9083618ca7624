// A printed line, put together on a page: a lent buffer and the place behind what was put there.
ghost use Rattle.std.specs.Prelude.{◌≡◌, [], ◌∷◌, ◌++◌, take};
ghost use Rattle.script.specs.Printing.{page, typed, over, digits_of, row, hex_of};

// What was printed.
pub fn shown(out: &[u8], printed: usize) -> &[u8]
    ensures { result.now ≡ take printed out.now }
{
    wire::first(out, printed)
}

// A number without its lowest digits.
fn over(n: u64, digits: usize) -> u64
    ensures { result ≡ over digits n }
{
    let mut rest = n;
    for _ in 0..digits {
        rest /= 16;
    }
    rest
}

// A lent buffer, and the place behind what was put there.
#[derive(Drop)]
pub struct Page<'a> {
    pub out: &'a mut [u8],
    pub at: usize,
}

impl<'a> Page<'a> {
    // A page on which nothing stands yet.
    pub fn on(out: &'a mut [u8]) -> Page<'a>
        ensures same_reference { result.out.ghost_name ≡ out.entry.ghost_name }
        ensures front { page result.out.now result.at ≡ page out.old 0 }
    {
        Page { out, at: 0 }
    }

    // One character; a full buffer takes none.
    pub fn put(&mut self, c: u8)
        ensures same_reference { self.new.out.ghost_name ≡ self.old.out.ghost_name }
        ensures typed { page self.new.out.now self.new.at ≡ typed (page self.old.out.now self.old.at) (c ∷ []) }
    {
        if self.at < self.out.len() {
            self.out[self.at] = c;
            self.at += 1;
        }
    }

    // A text.
    pub fn text(&mut self, s: &[u8])
        ensures same_reference { self.new.out.ghost_name ≡ self.old.out.ghost_name }
        ensures typed { page self.new.out.now self.new.at ≡ typed (page self.old.out.now self.old.at) s.now }
    {
        for c in s {
            self.put(*c);
        }
    }

    // A number of some digits.
    // Kept: a number and how many of its digits are printed stand side by side, as each call has another of both.
    pub fn number(&mut self, n: u64, digits: usize)
        ensures same_reference { self.new.out.ghost_name ≡ self.old.out.ghost_name }
        ensures typed { page self.new.out.now self.new.at ≡ typed (page self.old.out.now self.old.at) (digits_of digits n) }
    {
        for left in (0..digits).rev() {
            let digit = (over(n, left) % 16) as u8;
            self.put(hexadecimal::capital(digit));
        }
    }

    // A space and a number.
    pub fn field(&mut self, n: u64, digits: usize)
        ensures same_reference { self.new.out.ghost_name ≡ self.old.out.ghost_name }
        ensures typed { page self.new.out.now self.new.at ≡ typed (page self.old.out.now self.old.at) (32 ∷ digits_of digits n) }
    {
        self.put(b' ');
        self.number(n, digits);
    }

    // Bytes as pairs of digits, or `-` where there are none.
    pub fn bytes(&mut self, s: &[u8])
        ensures same_reference { self.new.out.ghost_name ≡ self.old.out.ghost_name }
        ensures typed { page self.new.out.now self.new.at ≡ typed (page self.old.out.now self.old.at) (hex_of s.now) }
    {
        if s.is_empty() {
            return self.put(b'-');
        }
        for b in s {
            self.number(*b as u64, 2);
        }
    }

    // A space and bytes.
    pub fn string(&mut self, s: &[u8])
        ensures same_reference { self.new.out.ghost_name ≡ self.old.out.ghost_name }
        ensures typed { page self.new.out.now self.new.at ≡ typed (page self.old.out.now self.old.at) (32 ∷ hex_of s.now) }
    {
        self.put(b' ');
        self.bytes(s);
    }

    // A space and words.
    // Kept: a loop of its own beside that of bytes, since one over both types needs a trait for the two, and a
    // definition by it, where each loop is one line.
    pub fn words(&mut self, ws: &[u16])
        ensures same_reference { self.new.out.ghost_name ≡ self.old.out.ghost_name }
        ensures typed { page self.new.out.now self.new.at ≡ typed (page self.old.out.now self.old.at) (32 ∷ row 4 ws.now) }
    {
        self.put(b' ');
        for w in ws {
            self.number(*w as u64, 4);
        }
    }
}
