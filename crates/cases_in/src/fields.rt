// The fields of a case, which stand one behind the other.
ghost use Rattle.std.specs.Prelude.{ℕ, ◌<◌, ◌≡◌, ◌≤◌, List, MatchOption, drop, length, take};

use std::marker::Model;

// What is left of a case. Each call takes a field off its front, or nothing where the case is too short for it.
#[derive(Drop)]
pub struct Fields<'a> {
    rest: &'a [u8],
}

// Clauses see the bytes that are left.
impl<'a> Model for Fields<'a> {
    ghost Value = { List ℕ };

    ghost view = { λ fields. fields.rest.now };
}

impl<'a> Fields<'a> {
    pub fn new(case: &'a [u8]) -> Self
        ensures { result ≡ case.now }
    {
        Fields { rest: case }
    }

    // A field of as many bytes as its type says.
    pub fn array<const N: usize>(&mut self) -> Option<[u8; N]>
        ensures { MatchOption result ((length self.old < N) × (self.new ≡ self.old)) (λ field. (field ≡ take N self.old) × (self.new ≡ drop N self.old)) }
    {
        let (field, rest) = self.rest.split_first_chunk()?;
        self.rest = rest;
        Some(*field)
    }

    // A field of n bytes.
    pub fn bytes(&mut self, n: usize) -> Option<&'a [u8]>
        ensures { MatchOption result ((length self.old < n) × (self.new ≡ self.old)) (λ field. (n ≤ length self.old) × (field.now ≡ take n self.old) × (self.new ≡ drop n self.old)) }
    {
        let (field, rest) = self.rest.split_at_checked(n)?;
        self.rest = rest;
        Some(field)
    }
}
