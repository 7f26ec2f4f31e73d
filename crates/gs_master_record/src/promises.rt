//! What holds of all records.

ghost use Rattle.std.specs.Prelude.{◌≡◌, ◌||◌, ◌==◌, not, true, Bool};
ghost use Rattle.gs_journal.specs.Bodies.{is_of_form};
ghost use Rattle.gs_journal.specs.declared.version.Version.{Version as AnyVersion};
ghost use Rattle.gs_master_record.specs.Encoding.{kind, encoded};
ghost use Rattle.gs_master_record.specs.Plain.{PlainEntry};
ghost use Rattle.gs_master_record.specs.Writable.{IsEntry};

/// A record is that of one entry alone. So what is decoded from an entry's record is that entry.
pub fn a_record_is_of_one_entry()
    ensures { (version : AnyVersion) (x y : PlainEntry) → IsEntry version x → IsEntry version y → encoded version x ≡ encoded version y → x ≡ y }
{}

/// What is written is of the form that a journal asks for when it is opened. A checkpoint stands first on its disk.
pub fn a_record_is_of_its_form()
    ensures { (version : AnyVersion) (is_first : Bool) (x : PlainEntry) → IsEntry version x → (is_first || not (kind x == 9)) ≡ true →
        is_of_form version is_first (encoded version x) ≡ true }
{}
