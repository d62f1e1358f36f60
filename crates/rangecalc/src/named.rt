//! The letters that name the maps, and one thing for each of them.

ghost use Rattle.std.specs.Prelude.{◌≡◌};
ghost use Rattle.std.specs.Borrow.{Lends, sem};
ghost use Rattle.rangecalc.specs.Named.{at, following, put};

/// One of the four letters.
#[derive(Clone, Copy, PartialEq)]
pub enum Name {
    A,
    B,
    C,
    D,
}

impl Name {
    /// The next letter, after the last one the first.
    pub fn next(self) -> Name
        ensures { result ≡ following self }
    {
        match self {
            Name::A => Name::B,
            Name::B => Name::C,
            Name::C => Name::D,
            Name::D => Name::A,
        }
    }
}

/// One thing for each letter.
#[derive(Drop)]
pub struct Named<T> {
    pub a: T,
    pub b: T,
    pub c: T,
    pub d: T,
}

impl<T> Named<T> {
    ghost use Rattle.rangecalc.specs.contracts.named.Named.{the_row};

    pub fn at(&self, name: Name) -> &T
        ensures { result.now ≡ at self.now name }
    {
        match name {
            Name::A => &self.a,
            Name::B => &self.b,
            Name::C => &self.c,
            Name::D => &self.d,
        }
    }

    pub fn at_mut(&mut self, name: Name) -> &mut T
        ensures* writes_back { sem 𝓛
            (Lends (the_row T.row) T.row self.entry result (put self.old name)) }
        ensures value { result.now ≡ at self.old name }
    {
        match name {
            Name::A => &mut self.a,
            Name::B => &mut self.b,
            Name::C => &mut self.c,
            Name::D => &mut self.d,
        }
    }
}
