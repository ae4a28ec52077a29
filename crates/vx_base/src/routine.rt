//! Routines: AST routines, exit handlers and routines in an inner mode, each entered at most once.

ghost use Rattle.std.specs.Prelude.{◌≡◌};
ghost use Rattle.vx_base.specs.declared.routine.Entry.{Entry as EntryOf};

/// Where a routine is entered.
#[derive(Clone, Copy, Debug, PartialEq, Eq)]
pub enum Entry {
    /// At a label of the process's image, by its place in the list of labels, from 0, with a parameter.
    Label(u32, u32),
    /// At the exit of the process with this code: the routine of a $FORCEX.
    Exit(u32),
    /// In the program that hosts the executive, with a parameter.
    Host(u32),
}

/// A routine that is entered at most once. It is known by its tag, the entry that it was made with; it cannot be copied.
pub trait Routine: Drop {
    /// Its tag: where it is entered.
    ghost tagged: { Self → EntryOf };

    /// The routine of a script that is entered there.
    fn scripted(entry: Entry) -> Self
        ensures { tagged result ≡ entry };

    /// Its tag.
    fn tag(&self) -> Entry
        ensures { result ≡ tagged self.now };

    /// Enters it: it is used up, and tells where.
    fn enter(self) -> Entry
        ensures { result ≡ tagged self };
}

/// A routine that is its entry alone, as the routines of a script are.
pub struct Scripted {
    entry: Entry,
}

impl Drop for Scripted {
    // Written out, so that it is proved here once, and not in each crate that lets one go.
    fn drop(self) {
        let Self { entry: _ } = self;
    }
}

impl Routine for Scripted {
    ghost tagged = { λ s. s.entry };

    fn scripted(entry: Entry) -> Scripted {
        Scripted { entry }
    }

    fn tag(&self) -> Entry {
        self.entry
    }

    fn enter(self) -> Entry {
        let Scripted { entry } = self;
        entry
    }
}
