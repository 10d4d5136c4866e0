// Cutting a text into lines, and a line into fields.
ghost use Rattle.std.specs.Prelude.{◌≡◌, ℕ, ◌<◌, ◌≤◌, true, false, List, length, position, Some, None, ◌==◌};
ghost use Rattle.std.specs.Iterator.{YieldsFirstRef, item_count};
ghost use Rattle.text.specs.Cuts.{before, from, row, below, ended, next, past, lines};

use std::marker::Model;

// The place of the first `b`.
fn find(s: &[u8], b: u8) -> Option<usize>
    ensures { result ≡ position (λ x. x == b) s.now }
{
    s.iter().position(|x| *x == b)
}

// The bytes before the first `b`, and those from it on.
#[tactic(auto, using(crate::proofs::Pieces::place_or_len, crate::proofs::Pieces::place_le, crate::proofs::Pieces::before_is, crate::proofs::Pieces::from_is))]
fn cut(s: &[u8], b: u8) -> (&[u8], &[u8])
    ensures front { result.0.now ≡ before b s.now }
    ensures back { result.1.now ≡ from b s.now }
{
    s.split_at(find(s, b).unwrap_or(s.len()))
}

// The first line of a text without its LF, and the text below it.
pub fn cut_line(s: &[u8]) -> (&[u8], &[u8])
    ensures line { result.0.now ≡ before 10 s.now }
    ensures rest { result.1.now ≡ below s.now }
{
    let (line, rest) = cut(s, b'\n');
    match rest {
        [_, below @ ..] => (line, below),
        [] => (line, rest),
    }
}

// The lines of a text, without their LFs. Contracts see those that are left.
#[derive(Drop)]
pub struct Lines<'a> {
    text: &'a [u8],
}

impl<'a> Model for Lines<'a> {
    ghost Value = { List (List ℕ) };

    ghost view = { λ it. lines it.text.now };
}

impl<'a> Lines<'a> {
    #[tactic(auto, using(crate::proofs::Rows::lines_few))]
    pub fn new(text: &'a [u8]) -> Lines<'a>
        ensures value { result ≡ lines text.now }
        ensures len { length result ≤ length text.now }
    {
        Lines { text }
    }
}

impl<'a> Iterator for Lines<'a> {
    type Item = &'a [u8];

    ghost next_gives = { YieldsFirstRef (λ it. it) };

    ghost remaining = { item_count (λ it. it) };

    #[tactic(auto, using(crate::proofs::Rows::lines_empty, crate::proofs::Rows::lines_cut))]
    fn next(&mut self) -> Option<&'a [u8]> {
        if self.text.is_empty() {
            return None;
        }
        let (line, below) = cut_line(self.text);
        self.text = below;
        Some(line)
    }
}

// The first line of a text, without its LF, and the text below it; None where the line has no LF.
#[tactic(auto, using(crate::proofs::Pieces::ended_some, crate::proofs::Pieces::ended_not, crate::proofs::Pieces::from_le))]
pub fn ended_line(s: &[u8]) -> Option<(&[u8], &[u8])>
    ensures line { elim result [ Some x ↦ (ended s.now ≡ true) × (x.0.now ≡ row s.now) × (x.1.now ≡ below s.now) | None ↦ ended s.now ≡ false ] }
    ensures less { elim result [ Some x ↦ length x.1.now < length s.now | None ↦ Unit {0} ] }
{
    let (line, rest) = cut(s, b'\n');
    let (_, below) = rest.split_first()?;
    Some((line, below))
}

// The first field of a line, and what is left after it, which begins with the space in front of the next field.
pub fn first_field(line: &[u8]) -> (&[u8], &[u8])
    ensures field { result.0.now ≡ before 32 line.now }
    ensures after { result.1.now ≡ from 32 line.now }
{
    cut(line, b' ')
}

// The next field of what is left of a line, which begins with its space, and what is left after it.
// Where no space is left the field is empty.
pub fn next_field(left: &[u8]) -> (&[u8], &[u8])
    ensures field { result.0.now ≡ next left.now }
    ensures after { result.1.now ≡ past left.now }
{
    match left {
        [b' ', more @ ..] => cut(more, b' '),
        _ => (&[], left),
    }
}
