// What a case deserves, and how many deserve what.
ghost use Rattle.std.specs.Prelude.{◌≡◌, Some};
ghost use Rattle.vectors.specs.Counts.{word, counted};

use std::fmt;

#[derive(Clone, Copy, PartialEq, Eq, Debug)]
pub(crate) enum Verdict {
    // The transform gave what the case expects.
    Same,
    // It gave something else.
    Differs,
    // No transform here serves the standard.
    Unserved,
    // The line is not in the form of a case.
    Unreadable,
}

impl fmt::Display for Verdict {
    ghost output = { λ v. Some (word v) };

    fn fmt<W: fmt::Write>(&self, f: &mut fmt::Formatter<W>) -> fmt::Result {
        f.write_str(match self {
            Verdict::Same => "same",
            Verdict::Differs => "differs",
            Verdict::Unserved => "unserved",
            Verdict::Unreadable => "unreadable",
        })
    }
}

// The counts over all cases. An unreadable one counts among those that differ, and an unserved one only among the cases.
#[derive(Clone, Copy)]
pub(crate) struct Tally {
    pub(crate) cases: u64,
    same: u64,
    differ: u64,
}

impl Tally {
    pub(crate) fn new() -> Self
        ensures { result ≡ record { cases = 0; same = 0; differ = 0 } }
    {
        Tally {
            cases: 0,
            same: 0,
            differ: 0,
        }
    }

    pub(crate) fn add(&mut self, verdict: Verdict)
        ensures { self.new ≡ counted self.old verdict }
    {
        self.cases = self.cases.saturating_add(1);
        match verdict {
            Verdict::Same => self.same = self.same.saturating_add(1),
            Verdict::Differs | Verdict::Unreadable => self.differ = self.differ.saturating_add(1),
            Verdict::Unserved => {}
        }
    }
}

impl fmt::Display for Tally {
    fn fmt<W: fmt::Write>(&self, f: &mut fmt::Formatter<W>) -> fmt::Result {
        let same = self.same;
        let differ = self.differ;
        write!(f, "{same} same, {differ} differ")
    }
}
