// Names of makers, as far as a reader knows them.
use crate::lookup::place_in;
use crate::vocabulary::Vocabulary;
use ck_base::Names;

/// What knows the names of makers.
pub trait Makers {
    ghost use Rattle.std.specs.Prelude.{◌≡◌, ℕ, List, is_some};
    ghost use Rattle.ck_base.specs.Numbered.{number_of};

    ghost names: { Self → List (List ℕ) };

    /// Whether a maker is called so.
    fn knows(&self, name: &[u8]) -> bool
        ensures { result ≡ is_some (number_of (names self.now) name.now) };
}

impl Makers for Names {
    ghost names = { λ makers. makers };

    fn knows(&self, name: &[u8]) -> bool {
        self.find(name).is_some()
    }
}

impl<'s> Makers for Vocabulary<'s> {
    ghost names = { λ words. words.makers };

    fn knows(&self, name: &[u8]) -> bool {
        place_in(self.makers, name).is_some()
    }
}
