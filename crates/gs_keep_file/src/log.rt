ghost use Rattle.std.specs.Prelude.{◌≡◌, ◌+◌, None, Some, length, IfSome, OnOk, OnErr, is_err, is_some};
ghost use Rattle.gs_keep_log.specs.Log.{LogDoes, LogDoesPart, appended, partly_appended, settled, synced, whole};

use crate::file::{FileFault, LogFile};
use gs_keep_log::{Failed, Log};
use std::io::{self, ErrorKind};

/// A log in a file.
#[derive(Drop)]
pub struct FileLog<F> {
    pub(crate) file: F,
    /// How long the file is, as far as the log knows.
    pub(crate) len: u64,
    /// How long it was when it was synced last, if it was since it was opened.
    synced_len: Option<u64>,
    /// Why a call failed, if one has.
    fault: Option<FileFault>,
}

/// Writes bytes until all are written. An interrupted write is made again. A file that takes nothing fails as `WriteZero`.
fn write_all<F: LogFile>(file: &mut F, bytes: &[u8]) -> io::Result<()>
    ensures ok { OnOk result (LogDoes (appended bytes.now) (F.holds file.old) (F.holds file.new)) }
    ensures err { OnErr result (LogDoesPart (partly_appended bytes.now) (F.holds file.old) (F.holds file.new)) }
{
    let mut written = 0;
    for _ in 0..u64::MAX {
        if written == bytes.len() {
            return Ok(());
        }
        match file.write_end(&bytes[written..]) {
            Ok(0) => return Err(io::Error::from(ErrorKind::WriteZero)),
            Ok(count) => written += count,
            Err(error) if error.kind() == ErrorKind::Interrupted => {}
            Err(error) => return Err(error),
        }
    }
    Err(io::Error::from(ErrorKind::TimedOut))
}

impl<F> FileLog<F> {
    /// A log in a file of so many bytes.
    pub fn new(file: F, len: u64) -> FileLog<F>
        ensures file { result.file ≡ file }
        ensures len { result.len ≡ len }
        ensures synced { result.synced_len ≡ None }
        ensures fault { result.fault ≡ None }
    {
        FileLog {
            file,
            len,
            synced_len: None,
            fault: None,
        }
    }

    /// How long the file is, as far as the log knows.
    pub fn len(&self) -> u64
        ensures { result ≡ self.now.len }
    {
        self.len
    }

    /// Why a call failed, if one has. The file is closed.
    pub fn into_fault(self) -> Option<FileFault>
    where
        F: Drop,
        ensures { result ≡ self.fault }
    {
        self.fault
    }

    /// Notes how a call of the file went.
    fn note(&mut self, outcome: Result<(), FileFault>) -> Result<(), Failed>
        ensures file { self.new.file ≡ self.old.file }
        ensures len { self.new.len ≡ self.old.len }
        ensures synced { self.new.synced_len ≡ self.old.synced_len }
        ensures failed { is_some self.new.fault ≡ is_err outcome }
        ensures same { is_err result ≡ is_err outcome }
    {
        match outcome {
            Ok(()) => {
                self.fault = None;
                Ok(())
            }
            Err(fault) => {
                self.fault = Some(fault);
                Err(Failed)
            }
        }
    }
}

impl<F: LogFile> FileLog<F> {
    /// Cuts the file behind what was synced last, where the system refused a write or a sync behind that, and says how long it is then.
    /// So whoever takes the file up again doesn't take for kept what only the system's memory has of it. Nothing is cut where nothing was
    /// synced, where another program has changed the file, or where no call has failed.
    pub fn give_up(&mut self) -> Result<Option<u64>, FileFault> {
        let Some(FileFault::System(_)) = self.fault else {
            return Ok(None);
        };
        let Some(len) = self.synced_len else {
            return Ok(None);
        };
        let is_cut = self.file.cut_back(len)?;
        Ok(is_cut.then_some(len))
    }
}

impl<F: LogFile> Log for FileLog<F> {
    ghost use Rattle.std.specs.Prelude.{is_some};

    ghost holds = { λ log. F.holds log.file };

    ghost has_failed = { λ log. is_some log.fault };

    /// Where it passes, the file was as long as the log knew.
    fn append(&mut self, bytes: &[u8]) -> Result<(), Failed>
        ensures ok { OnOk result (LogDoes (appended bytes.now) (F.holds self.old.file) (F.holds self.new.file)) }
        ensures err { OnErr result (LogDoesPart (partly_appended bytes.now) (F.holds self.old.file) (F.holds self.new.file)) }
        ensures failed { is_some self.new.fault ≡ is_err result }
        ensures known { OnOk result (IfSome (F.holds self.old.file) (λ h. length (whole h) ≡ self.old.len)) }
        ensures len { OnOk result (self.new.len ≡ self.old.len + length bytes.now) }
        ensures synced { self.new.synced_len ≡ self.old.synced_len }
    {
        let Some(len) = self.len.checked_add(bytes.len() as u64) else {
            let error = io::Error::from(ErrorKind::FileTooLarge);
            return self.note(Err(FileFault::System(error)));
        };
        if let Err(fault) = self.file.check(self.len) {
            return self.note(Err(fault));
        }
        let outcome = write_all(&mut self.file, bytes);
        self.len = len;
        self.note(outcome.map_err(FileFault::System))
    }

    fn sync(&mut self) -> Result<(), Failed>
        ensures ok { OnOk result (LogDoes synced (F.holds self.old.file) (F.holds self.new.file)) }
        ensures err { OnErr result (LogDoesPart settled (F.holds self.old.file) (F.holds self.new.file)) }
        ensures failed { is_some self.new.fault ≡ is_err result }
        ensures len { self.new.len ≡ self.old.len }
        ensures synced { OnOk result (self.new.synced_len ≡ Some self.old.len) }
        ensures unsynced { OnErr result (self.new.synced_len ≡ self.old.synced_len) }
    {
        let outcome = self.file.sync();
        match outcome {
            Ok(()) => {
                self.synced_len = Some(self.len);
                self.note(Ok(()))
            }
            Err(error) => self.note(Err(FileFault::System(error))),
        }
    }

    fn cut(&mut self, len: u64) -> Result<(), Failed> {
        let outcome = self.file.cut(self.len, len);
        self.len = len;
        self.synced_len = outcome.is_ok().then_some(len);
        self.note(outcome)
    }
}
