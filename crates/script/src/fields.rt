// The fields of a line, one after another.
//
// What a reader leaves, `rest`, stands in the clauses of each, as it speaks of before and after, and no type does.
ghost use Rattle.std.specs.Prelude.{◌≡◌, ◌<◌, ◌==◌};
ghost use Rattle.script.specs.Fields.{after, before, first, mark_of, others, split, takes};
ghost use Rattle.std.specs.List.{position};
ghost use Rattle.std.specs.Option.{option_map};

use std::alloc::Global;
use std::marker::Model;

// What stands between fields.
#[derive(Clone, Copy)]
pub enum Separator {
    // One or more spaces.
    Space,
    // One colon.
    Colon,
}

impl Separator {
    // The byte that separates, by a table: a byte's literal says more than the discriminant 32 or 58.
    fn mark(self) -> u8
        ensures { result ≡ mark_of self }
    {
        match self {
            Separator::Space => b' ',
            Separator::Colon => b':',
        }
    }

    // Whether a piece is a field: an empty one is none between spaces.
    fn takes(self, piece: &[u8]) -> bool
        ensures { result ≡ takes self piece.now }
    {
        match self {
            Separator::Space => !piece.is_empty(),
            Separator::Colon => true,
        }
    }
}

// A reader over the fields of a text.
#[derive(Drop)]
pub struct Fields<'a> {
    // What is left, if the text did not end.
    rest: Option<&'a [u8]>,
    separator: Separator,
    // Where what is read is kept.
    pub(crate) heap: Global,
}

// A contract sees the fields that are yet to come.
impl<'a> Model for Fields<'a> {
    ghost use Rattle.std.specs.Prelude.{ℕ, List};
    ghost use Rattle.script.specs.Fields.{left};

    ghost Value = { List (List ℕ) };

    ghost view = { λ f. left f.separator f.rest };
}

// Where the first `mark` stands.
fn place(text: &[u8], mark: u8) -> Option<usize>
    ensures { result ≡ position (λ b. b == mark) text.now }
{
    text.iter().position(|b| *b == mark)
}

// The bytes before the first `mark` or all of them, and what follows the mark if there is one.
#[tactic(auto, using(crate::proofs::Cuts::before_at, crate::proofs::Cuts::after_at, crate::proofs::Cuts::before_all, crate::proofs::Cuts::after_none))]
pub fn cut(text: &[u8], mark: u8) -> (&[u8], Option<&[u8]>)
    ensures front { result.0.now ≡ before mark text.now }
    ensures back { option_map (λ y. y.now) result.1 ≡ after mark text.now }
{
    match place(text, mark) {
        Some(i) => (&text[..i], Some(&text[i + 1..])),
        None => (text, None),
    }
}

impl<'a> Fields<'a> {
    pub fn new(heap: Global, text: &'a [u8], separator: Separator) -> Fields<'a>
        ensures { result ≡ split separator text.now }
    {
        Fields {
            rest: Some(text),
            separator,
            heap,
        }
    }

    // The next field, if there is one.
    pub fn next(&mut self) -> Option<&'a [u8]>
        ensures field { option_map (λ y. y.now) result ≡ first self.old }
        ensures rest { self.new ≡ others self.old }
    {
        while let Some(text) = self.rest {
            let (field, rest) = cut(text, self.separator.mark());
            self.rest = rest;
            if self.separator.takes(field) {
                return Some(field);
            }
        }
        None
    }
}
