// Which of two disks counts, and where its records end.
ghost use Rattle.std.specs.Prelude.{◌≡◌, ◌==◌, not, get_or, true, false, IfOk, IfErr, OnOk};
ghost use Rattle.gs_base.specs.declared.refusal.Refusal.TheVariants.{BadLine};
ghost use Rattle.gs_journal.specs.Records.{is_begun, version_of, generation_of, standing, text_of};
ghost use Rattle.gs_journal.specs.Forms.{is_text};

use crate::frame::{Header, end_of_records, header_of};
use crate::version::Version;
use gs_base::Refusal;
use gs_journal_disk::is_open;

/// Which disk counts, what its header says, where its records end, and whether a closed gate stands there.
#[derive(Clone, Copy)]
pub(crate) struct Place {
    pub(crate) is_second: bool,
    pub(crate) version: Version,
    pub(crate) generation: u64,
    pub(crate) end: usize,
    pub(crate) has_gate: bool,
}

/// Whether a closed gate stands there.
fn is_closed_at(bytes: &[u8], at: usize) -> bool
    ensures { result ≡ not (get_or bytes.now at 1 == 1) }
{
    match bytes.get(at) {
        Some(gate) => !is_open(*gate),
        None => false,
    }
}

impl Place {
    ghost use Rattle.gs_journal.specs.inner.Places.{IsPlace, FindsPlace};

    /// The place on a disk that may count.
    fn on(bytes: &[u8], header: Header, is_second: bool) -> Result<Place, Refusal>
        requires begun { is_begun bytes.now ≡ true }
        requires version { header.version ≡ version_of bytes.now }
        requires generation { header.generation ≡ generation_of bytes.now }
        ensures place { IfOk result (λ p. IsPlace p bytes.now × (p.is_second ≡ is_second)) }
        ensures refused { IfErr result (λ e. (e ≡ BadLine) × (is_text (text_of bytes.now) ≡ false)) }
    {
        match end_of_records(bytes, header.version) {
            None => Err(Refusal::BadLine),
            Some(end) => Ok(Place {
                is_second,
                version: header.version,
                generation: header.generation,
                end,
                has_gate: is_closed_at(bytes, end),
            }),
        }
    }

    /// The place on the disk that counts, if one does.
    pub(crate) fn of(first: &[u8], second: &[u8]) -> Result<Option<Place>, Refusal>
        ensures place { IfOk result (λ o. FindsPlace o first.now second.now) }
        ensures form { OnOk result (is_text (standing first.now second.now) ≡ true) }
        ensures refused { IfErr result (λ e. (e ≡ BadLine) × (is_text (standing first.now second.now) ≡ false)) }
    {
        let Some(later) = header_of(second) else {
            let Some(header) = header_of(first) else {
                return Ok(None);
            };
            return Ok(Some(Place::on(first, header, false)?));
        };
        if let Some(header) = header_of(first) {
            if later.generation <= header.generation {
                return Ok(Some(Place::on(first, header, false)?));
            }
        }
        Ok(Some(Place::on(second, later, true)?))
    }
}
