//! Byte strings that acts borrow.
ghost use Rattle.std.specs.Prelude.{◌≡◌, [], ◌∷◌, MatchOption};
ghost use Rattle.cops_types.specs.Words.{no_words, parts_at, space};

use cops_types::words::split_word;
use std::marker::Model;

/// Borrowed bytes, which may be no valid key or value. Contracts see the list.
#[derive(Debug, Drop)]
pub struct ByteSlice<'a> {
    bytes: &'a [u8],
}

impl<'a> Model for ByteSlice<'a> {
    ghost use Rattle.std.specs.Prelude.{List, ℕ};

    ghost Value = { List ℕ };

    ghost view = { λ s. s.bytes.now };
}

/// Several byte strings, in order. Contracts see the list.
#[derive(Debug, Drop)]
pub struct ByteSlices<'a> {
    form: Form<'a>,
}

/// The form in which the byte strings are given.
#[derive(Debug, Drop)]
enum Form<'a> {
    /// The words of a part of a line, between single spaces, or none.
    InLine(Option<&'a [u8]>),
    /// One by one.
    Listed(&'a [ByteSlice<'a>]),
}

impl<'a> Model for ByteSlices<'a> {
    ghost use Rattle.std.specs.Prelude.{List, ℕ};
    ghost use Rattle.cops_model.specs.SliceForms.{slices_of};

    ghost Value = { List (List ℕ) };

    ghost view = { λ s. slices_of s.form };
}

impl<'a> ByteSlice<'a> {
    /// Returns these bytes as a slice of an act.
    pub fn of(bytes: &'a [u8]) -> Self
        ensures { result ≡ bytes.now }
    {
        ByteSlice { bytes }
    }

    /// Returns the bytes.
    pub fn as_slice(&self) -> &'a [u8]
        ensures { result.now ≡ self.now }
    {
        self.bytes
    }
}

impl<'a> ByteSlices<'a> {
    /// Returns these byte strings, in order.
    pub fn of(slices: &'a [ByteSlice<'a>]) -> Self
        ensures { result ≡ slices.now }
    {
        ByteSlices {
            form: Form::Listed(slices),
        }
    }

    /// Returns the words of this line, between single spaces.
    pub fn in_line(line: &'a [u8]) -> Self
        ensures { result ≡ parts_at space line.now }
    {
        ByteSlices {
            form: Form::InLine(Some(line)),
        }
    }

    /// Returns the same byte strings, to be iterated separately.
    pub fn again(&self) -> Self
        ensures { result ≡ self.now }
    {
        match &self.form {
            Form::InLine(part) => ByteSlices {
                form: Form::InLine(*part),
            },
            Form::Listed(slices) => ByteSlices::of(slices),
        }
    }

    /// Removes and returns the first byte string.
    pub fn next_slice(&mut self) -> Option<&'a [u8]>
        ensures { MatchOption result ((self.old ≡ []) × (self.new ≡ [])) (λ slice. self.old ≡ slice.now ∷ self.new) }
    {
        match &self.form {
            Form::InLine(part) => {
                let (first, rest) = split_word((*part)?);
                self.form = Form::InLine(rest);
                Some(first)
            }
            Form::Listed(slices) => {
                let (first, rest) = slices.split_first()?;
                self.form = Form::Listed(rest);
                Some(first.as_slice())
            }
        }
    }

    /// Returns `true` if there are none.
    pub fn is_empty(&self) -> bool
        ensures { result ≡ no_words self.now }
    {
        match &self.form {
            Form::InLine(part) => part.is_none(),
            Form::Listed(slices) => slices.is_empty(),
        }
    }
}
