// Texts as spans of a source or of literals.
ghost use Rattle.std.specs.Prelude.{◌≡◌};
ghost use Rattle.value_store.specs.Texts.{text_of};

/// Which bytes a text lies in.
#[derive(Clone, Copy, Debug, PartialEq, Eq)]
pub enum TextOf {
    /// The source.
    Source,
    /// The strings of the specification, one after the other.
    Literal,
}

/// A text: the bytes from the place `from` on, up to the place `to`; places count from 0.
#[derive(Clone, Copy, Debug, PartialEq, Eq)]
pub struct Text {
    pub of: TextOf,
    pub from: u32,
    pub to: u32,
}

/// The bytes that the texts of one run lie in.
#[derive(Clone, Copy)]
pub struct Texts<'a> {
    pub source: &'a [u8],
    pub literals: &'a [u8],
}

impl<'a> Texts<'a> {
    /// The bytes of the text. Of one that goes past the end, those that are there.
    pub fn bytes(&self, t: Text) -> &'a [u8]
        ensures { result.now ≡ text_of self.now.source.now self.now.literals.now t }
    {
        let all = match t.of {
            TextOf::Source => self.source,
            TextOf::Literal => self.literals,
        };
        let end = (t.to as usize).min(all.len());
        let start = (t.from as usize).min(end);
        &all[start..end]
    }
}
