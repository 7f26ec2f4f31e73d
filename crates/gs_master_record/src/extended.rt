// The answer to an extend.
ghost use Rattle.std.specs.Prelude.{◌≡◌};
ghost use Rattle.gs_master_record.specs.Extended.{primary_of, end_of};

use crate::entry::SettledView;
use gs_lease::Term;
use std::fmt;

/// The answer to an extend, as a kept reply has it: the view with which the chunk was settled, and the epoch of the answer.
/// As a text: the numbers of the view in the order of a settled view's record, a primary of 255 with the end 0 where there
/// is none, and then the epoch, each in decimal, with one space between two.
#[derive(Clone, Copy, Debug, PartialEq, Eq)]
pub struct Extended {
    pub settled: SettledView,
    pub epoch: u64,
}

/// The numbers of a primary and its end.
fn numbers_of(term: Option<Term>) -> (u8, u64)
    ensures primary { result.0 ≡ primary_of term }
    ensures end { result.1 ≡ end_of term }
{
    match term {
        Some(term) => (term.primary.number(), term.end.0),
        None => (255, 0),
    }
}

impl fmt::Display for Extended {
    ghost use Rattle.std.specs.Prelude.{Some};
    ghost use Rattle.gs_master_record.specs.Extended.{extended_text};

    ghost output = { λ a. Some (extended_text a) };

    fn fmt<W: fmt::Write>(&self, f: &mut fmt::Formatter<W>) -> fmt::Result {
        let handle = self.settled.handle;
        let view = self.settled.view;
        let epoch = view.stamp.epoch;
        let version = view.stamp.version;
        let count = view.count;
        let members = view.members.bits();
        let (primary, end) = numbers_of(view.term);
        let answered = self.epoch;
        write!(
            f,
            "{handle} {epoch} {version} {count} {members} {primary} {end} {answered}"
        )
    }
}
