// The line that is not ended yet.
ghost use Rattle.std.specs.Prelude.{◌≡◌, ℕ, List, [], ◌∷◌, ◌++◌, false, true, IfSome};
ghost use Rattle.std.specs.List.{list_any};
ghost use Rattle.std.specs.Option.{option_to_list};
ghost use Rattle.mg_model.specs.Lines.{line_of, lines};
ghost use Rattle.mg_model.specs.Words.{is_newline};

use arrayvec::ArrayVec;
use mg_model::Line;
use mg_text::read_line;
use std::marker::Model;

/// The bytes of a line whose newline has not come yet. Of a line that is too long to be one, no more than its first 257
/// bytes are kept, which say as much as all of it.
#[derive(Drop)]
pub struct PartialLine {
    bytes: ArrayVec<u8, 257>,
}

impl Model for PartialLine {
    ghost use Rattle.std.specs.Prelude.{◌≡◌, ℕ, List, false};
    ghost use Rattle.std.specs.List.{list_any};
    ghost use Rattle.mg_model.specs.Words.{is_newline};

    ghost Value = { List ℕ };

    ghost view = { λ p. p.bytes.items };

    ghost invariant = { λ p. list_any is_newline p.bytes.items ≡ false };
}

impl PartialLine {
    /// A line of which nothing has come.
    pub fn new() -> PartialLine
        ensures { result ≡ [] }
    {
        PartialLine {
            bytes: ArrayVec::new(),
        }
    }

    /// A byte of the line, which is no newline, came. Whatever comes after it, the lines are the same.
    pub fn add(&mut self, byte: u8)
        requires { is_newline byte ≡ false }
        ensures same { (rest : List ℕ) → lines (self.old ++ byte ∷ rest) ≡ lines (self.new ++ rest) }
        ensures whole { list_any is_newline self.new ≡ false }
    {
        let _ = self.bytes.try_push(byte);
    }

    /// Bytes of the line, none of which is a newline, came. Whatever comes after them, the lines are the same.
    pub fn add_all(&mut self, bytes: &[u8])
        requires { list_any is_newline bytes.now ≡ false }
        ensures same { (rest : List ℕ) → lines (self.old ++ (bytes.now ++ rest)) ≡ lines (self.new ++ rest) }
        ensures whole { list_any is_newline self.new ≡ false }
    {
        self.keep_rules();
        for b in bytes {
            self.add(*b);
        }
    }

    // No newline is among the bytes.
    fn keep_rules(&self)
        ensures { list_any is_newline self.now ≡ false }
    {
        let _ = self.bytes.len();
    }

    /// The rest of the line and its newline came: what the line spells. A line that came whole is read where it is. The
    /// next line begins with nothing.
    pub fn finish_with(&mut self, bytes: &[u8]) -> Option<Line>
        requires { list_any is_newline bytes.now ≡ false }
        ensures line { (rest : List ℕ) → lines (self.old ++ ((bytes.now ++ 10 ∷ []) ++ rest)) ≡ option_to_list result ++ lines (self.new ++ rest) }
        ensures whole { list_any is_newline self.new ≡ false }
    {
        if self.is_empty() {
            read_line(bytes)
        } else {
            self.add_all(bytes);
            self.finish()
        }
    }

    // Whether nothing of the line has come.
    fn is_empty(&self) -> bool
        ensures { result ≡ true → self.now ≡ [] }
    {
        self.bytes.is_empty()
    }

    /// The line's newline came, or the end of the input: what the line spells. The next line begins with nothing.
    pub fn finish(&mut self) -> Option<Line>
        ensures line { result ≡ line_of self.old }
        ensures empty { self.new ≡ [] }
        ensures whole { list_any is_newline self.old ≡ false }
    {
        let line = read_line(self.bytes.as_slice());
        self.bytes.clear();
        line
    }
}
