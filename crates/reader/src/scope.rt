// What stands around a form: the names that are bound there, and the nearest do.
ghost use Rattle.std.specs.Prelude.{◌≡◌, ◌∷◌};
ghost use Rattle.reader.specs.Reading.{around, binds, lookup, recs_from};

// A rec around a form: the name that it binds, its place, and the next rec around it.
#[derive(Clone, Copy)]
pub struct Binding<'a> {
    pub name: &'a [u8],
    pub rec: usize,
    pub outer: Option<&'a Binding<'a>>,
}

// The innermost rec around a form, and the place of the innermost do around it, 0 where there is none.
// Kept: no rec lies before place 0, so with 0 for none the test of a go is one comparison.
#[derive(Clone, Copy)]
pub struct Scope<'a> {
    pub inner: Option<&'a Binding<'a>>,
    pub guard: usize,
}

impl<'a> Scope<'a> {
    // Nothing stands around the whole term.
    pub(crate) const OUTERMOST: Scope<'static> = Scope {
        inner: None,
        guard: 0,
    };

    // The rec at a place, which binds a name.
    pub(crate) fn binding(self, name: &'a [u8], rec: usize) -> Binding<'a>
        ensures { recs_from result ≡ binds name.now rec ∷ around self.entry }
    {
        Binding {
            name,
            rec,
            outer: self.inner,
        }
    }

    // Inside the do at a place.
    pub(crate) fn guarded(self, place: usize) -> Scope<'a>
        ensures names { around result ≡ around self.entry }
        ensures guard { result.guard ≡ place }
    {
        Scope {
            guard: place,
            ..self
        }
    }

    // Inside a rec.
    pub(crate) fn inside(self, rec: &'a Binding<'a>) -> Scope<'a>
        ensures names { around result ≡ recs_from rec.now }
        ensures guard { result.guard ≡ self.entry.guard }
    {
        Scope {
            inner: Some(rec),
            ..self
        }
    }

    // The place of the innermost rec around that binds the name.
    // Kept: nothing says that std's iterator over such links, `successors`, ends, which `find` requires.
    pub(crate) fn find(self, name: &[u8]) -> Option<usize>
        ensures { result ≡ lookup (around self.entry) name.now }
    {
        let mut next = self.inner;
        while let Some(binding) = next {
            if binding.name == name {
                return Some(binding.rec);
            }
            next = binding.outer;
        }
        None
    }
}
