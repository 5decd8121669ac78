//! A line of words that grows at its end.

ghost use Rattle.std.specs.Prelude.{◌≡◌, ◌++◌, [], ◌∷◌, if◌then◌else◌, true, false, ℕ, pos, codes, OnOk};
ghost use Rattle.std.specs.List.{flat_map};
ghost use Rattle.al_read.specs.Tokens.{written};
ghost use Rattle.al_plan.specs.Grammar as grammar;
ghost use Rattle.al_plan.specs.Grammar.{plain};
ghost use Rattle.al_print.specs.Canonical.{after};

use al_value::{List, NoMemory};
use itoa::Buffer;
use std::alloc::Global;

/// A line so far, and whether the next word stands without a space before it.
#[derive(Debug, Drop)]
pub struct Line {
    text: List<u8>,
    tight: bool,
}

impl Line {
    pub fn new(alloc: Global) -> Line
        ensures { result ≡ record { text = []; tight = true } }
    {
        Line {
            text: List::new(alloc),
            tight: true,
        }
    }

    pub fn into_text(self) -> List<u8>
        ensures { result ≡ self.text }
    {
        let Line { text, .. } = self;
        text
    }

    /// A space, unless none may stand here.
    fn space(&mut self) -> Result<(), NoMemory>
        ensures { OnOk result (self.new ≡ record { text = self.old.text ++ (if self.old.tight then [] else codes " "); tight = self.old.tight }) }
    {
        if !self.tight {
            self.text.push(b' ')?;
        }
        Ok(())
    }

    /// A word of one piece, and of neither parenthesis.
    fn piece(&mut self, piece: &[u8]) -> Result<(), NoMemory>
        ensures { OnOk result (self.new ≡ record { text = self.old.text ++ ((if self.old.tight then [] else codes " ") ++ piece.now); tight = false }) }
    {
        self.space()?;
        self.text.extend(piece)?;
        self.tight = false;
        Ok(())
    }

    #[tactic(auto, unfolding(crate::specs::Canonical::after, crate::specs::Canonical::line_of))]
    pub fn open(&mut self) -> Result<(), NoMemory>
        ensures { OnOk result (self.new ≡ after self.old (plain grammar.Open ∷ [])) }
    {
        self.piece(b"(")?;
        self.tight = true;
        Ok(())
    }

    /// A parenthesis that opens, and a name behind it.
    #[tactic(auto, unfolding(crate::specs::Canonical::after, crate::specs::Canonical::line_of))]
    pub fn head(&mut self, name: &str) -> Result<(), NoMemory>
        ensures { OnOk result (self.new ≡ after self.old (plain grammar.Open ∷ (plain (grammar.Name name.now) ∷ []))) }
    {
        self.piece(b"(")?;
        self.text.extend(name.as_bytes())?;
        Ok(())
    }

    /// The head of an operator.
    #[tactic(auto, unfolding(crate::specs::Canonical::after, crate::specs::Canonical::line_of))]
    pub fn operator(&mut self, name: &str) -> Result<(), NoMemory>
        ensures { OnOk result (self.new ≡ after self.old ((grammar.Operator, grammar.Open) ∷ (plain (grammar.Name name.now) ∷ []))) }
    {
        self.head(name)
    }

    /// The head of a dataset.
    #[tactic(auto, unfolding(crate::specs::Canonical::after, crate::specs::Canonical::line_of))]
    pub fn dataset(&mut self) -> Result<(), NoMemory>
        ensures { OnOk result (self.new ≡ after self.old ((grammar.Dataset, grammar.Open) ∷ (plain (grammar.Name (codes "dataset")) ∷ []))) }
    {
        self.head("dataset")
    }

    #[tactic(auto, unfolding(crate::specs::Canonical::after, crate::specs::Canonical::line_of))]
    pub fn close(&mut self) -> Result<(), NoMemory>
        ensures { OnOk result (self.new ≡ after self.old (plain grammar.Close ∷ [])) }
    {
        self.text.push(b')')?;
        self.tight = false;
        Ok(())
    }

    #[tactic(auto, unfolding(crate::specs::Canonical::after, crate::specs::Canonical::line_of))]
    pub fn name(&mut self, name: &str) -> Result<(), NoMemory>
        ensures { OnOk result (self.new ≡ after self.old (plain (grammar.Name name.now) ∷ [])) }
    {
        self.piece(name.as_bytes())
    }

    /// A variable, by its name without the `$`.
    #[tactic(auto, unfolding(crate::specs::Canonical::after, crate::specs::Canonical::line_of))]
    pub fn variable(&mut self, name: &str) -> Result<(), NoMemory>
        ensures { OnOk result (self.new ≡ after self.old (plain (grammar.Variable name.now) ∷ [])) }
    {
        self.piece(b"$")?;
        self.text.extend(name.as_bytes())?;
        Ok(())
    }

    #[tactic(auto, unfolding(crate::specs::Canonical::after, crate::specs::Canonical::line_of))]
    pub fn int(&mut self, n: i64) -> Result<(), NoMemory>
        ensures { OnOk result (self.new ≡ after self.old (plain (grammar.Number n) ∷ [])) }
    {
        let mut buffer = Buffer::new();
        self.piece(buffer.format(n).as_bytes())
    }

    #[tactic(auto, unfolding(crate::specs::Canonical::after, crate::specs::Canonical::line_of))]
    pub fn count(&mut self, n: u64) -> Result<(), NoMemory>
        ensures { OnOk result (self.new ≡ after self.old (grammar.count_word n ∷ [])) }
    {
        let mut buffer = Buffer::new();
        self.piece(buffer.format(n).as_bytes())
    }

    /// A string of this content, between quotes and with its escapes.
    #[tactic(auto, unfolding(crate::specs::Canonical::after, crate::specs::Canonical::line_of))]
    pub fn string(&mut self, content: &str) -> Result<(), NoMemory>
        ensures { OnOk result (self.new ≡ after self.old (plain (grammar.Text content.now) ∷ [])) }
    {
        self.piece(b"\"")?;
        push_content(&mut self.text, content.as_bytes())?;
        self.text.push(b'"')?;
        Ok(())
    }
}

fn push_content(text: &mut List<u8>, content: &[u8]) -> Result<(), NoMemory>
    ensures { OnOk result (text.new ≡ text.old ++ flat_map written content.now) }
{
    for byte in content {
        push_written(text, *byte)?;
    }
    Ok(())
}

fn push_written(text: &mut List<u8>, byte: u8) -> Result<(), NoMemory>
    ensures { OnOk result (text.new ≡ text.old ++ written byte) }
{
    match byte {
        b'"' => text.extend(b"\\\""),
        b'\\' => text.extend(b"\\\\"),
        b'\n' => text.extend(b"\\n"),
        b'\t' => text.extend(b"\\t"),
        b'\r' => text.extend(b"\\r"),
        _ => text.push(byte),
    }
}
