// Writing into the caller's buffer: a writer puts each text where the one before it ends, if there is room for it. So a
// text that is put into no buffer at all is counted.
ghost use Rattle.std.specs.Prelude.{◌≡◌, ℕ, min, List, [], ◌∷◌, length, nat_lt};
ghost use Rattle.std.specs.List.{flat_map};
ghost use Rattle.text.specs.Buffer.{with_text, Wrote, last_place};
ghost use Rattle.text.specs.Formats.{follows, number};

use itoa::{Buffer, Integer};

// A buffer, and the place in it where the next text goes.
#[derive(Drop)]
pub struct Writer<'a> {
    out: &'a mut [u8],
    at: usize,
}

impl<'a> Writer<'a> {
    // A writer whose next text goes to a place of the buffer.
    pub fn new(out: &'a mut [u8], at: usize) -> Writer<'a>
        ensures buffer { result.out ≡ out.entry }
        ensures place { result.at ≡ at }
    {
        Writer { out, at } // with nothing put yet
    }
}

#[tactic(auto, using(crate::proofs::Pastes::putting))]
impl Writer<'_> {
    // Where the next text goes: the end of what was put.
    pub fn place(&self) -> usize
        ensures { result ≡ self.now.at }
    {
        self.at // counted also where there was no room
    }

    #[tactic(auto, using(crate::proofs::Pastes::with_byte, crate::proofs::Pastes::with_past))]
    pub fn byte(&mut self, b: u8)
        ensures { self.new ≡ with_text (b ∷ []) self.old }
    {
        let end = self.at.saturating_add(1);
        if self.at >= self.out.len() {
            self.at = end;
            return;
        }
        self.out[self.at] = b;
        self.at = end;
    }

    // This and `numbers` are a line each: what differs is the text that the contract names.
    pub fn bytes(&mut self, bytes: &[u8])
        ensures { self.new ≡ with_text bytes.now self.old }
    {
        for b in bytes {
            self.byte(*b);
        }
    }

    // By `itoa`, since a contract knows what `write!` puts only where that does not fail, and nothing here can.
    pub fn number<I: Integer>(&mut self, n: I)
        ensures { self.new ≡ with_text (I.text n) self.old }
    {
        self.bytes(Buffer::new().format(n).as_bytes());
    }

    // A later field of a line, after its space.
    pub fn later<I: Integer>(&mut self, n: I)
        ensures { self.new ≡ with_text (32 ∷ I.text n) self.old }
    {
        self.byte(b' ');
        self.number(n);
    }

    // Later numbers of a line, each after its space.
    pub fn numbers(&mut self, numbers: &[u64])
        ensures { self.new ≡ with_text (flat_map (follows number).text numbers.now) self.old }
    {
        for n in numbers {
            self.later(*n);
        }
    }

    // The end of a line.
    pub fn end(&mut self)
        ensures { self.new ≡ with_text (10 ∷ []) self.old }
    {
        self.byte(b'\n');
    }
}

// What has a text.
pub trait Text {
    ghost text: { Self → List ℕ };

    fn put(&self, w: &mut Writer<'_>)
        ensures { w.new ≡ with_text (text self.now) w.old };
}

// The length of a text; one that is too long to be counted gives the greatest number.
#[tactic(auto, unfolding(crate::specs::Buffer::with_text))]
pub fn text_len<T: Text>(x: &T) -> usize
    ensures { result ≡ min (length (T.text x.now)) last_place }
{
    let mut w = Writer::new(&mut [], 0);
    x.put(&mut w);
    w.place()
}

fn is_short(out: &[u8], len: usize) -> bool
    ensures { result ≡ nat_lt (length out.now) len }
{
    out.len() < len
}

// Writes a text at the front of the buffer and answers its length. A buffer that is too short stays as it was.
pub fn write<T: Text, E: Drop>(x: &T, out: &mut [u8], short: E) -> Result<usize, E>
    ensures { Wrote short (T.text x.now) out.old out.new result }
{
    if is_short(out, text_len(x)) {
        return Err(short);
    }
    let mut w = Writer { out, at: 0 };
    x.put(&mut w);
    Ok(w.at)
}
