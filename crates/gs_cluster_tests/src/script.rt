use gs_base::{Config, Refusal};
use gs_shell_threads::run_threads;
use std::alloc::Global;
use std::io::{self, BufRead, ErrorKind, Read, Write};
use std::sync::Wait;
use std::test::Fail;
use std::thread::Threads;
use std::time::Clock;

/// A reader that gives all at once.
#[derive(Drop)]
struct Input<'a> {
    rest: &'a [u8],
}

impl Read for Input<'_> {
    fn read(&mut self, _buf: &mut [u8]) -> io::Result<usize> {
        Err(io::Error::from(ErrorKind::Other))
    }
}

impl BufRead for Input<'_> {
    fn fill_buf(&mut self) -> io::Result<&[u8]> {
        Ok(self.rest)
    }

    fn consume(&mut self, amount: usize) {
        self.rest = &self.rest[amount.min(self.rest.len())..];
    }
}

/// A writer that takes all.
#[derive(Drop)]
struct Output {
    written: Vec<u8>,
}

impl Write for Output {
    fn write(&mut self, buf: &[u8]) -> io::Result<usize> {
        self.written.extend_from_slice(buf)?;
        Ok(buf.len())
    }

    fn flush(&mut self) -> io::Result<()> {
        Ok(())
    }
}

/// What a new store of so many servers in two racks, each of which is to have all chunks, writes for a script, or how it ended otherwise.
fn output_of<T: Threads + Wait + Clock + Copy + Drop + Send + Sync + 'static>(
    rt: &T,
    alloc: Global,
    servers: u64,
    script: &[u8],
) -> Result<String, Refusal> {
    let config = Config::new(servers, 2, servers, 4, 16)?;
    let mut input = Input { rest: script };
    let mut output = Output {
        written: Vec::new(alloc),
    };
    if run_threads(rt, alloc, config, &mut input, &mut output).is_err() {
        output.written.extend_from_slice(b"[fault]")?;
    }
    String::from_utf8(output.written)
        .ok()
        .ok_or(Refusal::BadLine)
}

/// Scripts with what a store on one thread answers.
const SCRIPTS: [(&'static [u8], &'static str); 7] = [
    // A directory that is there again, and a file at its place.
    (
        b"mkdir /a/b\nmkdir /a/b\ncreate /a\n",
        "ok\nok\nrefused 4 Exists\n",
    ),
    // Two elements that are none, one of 200 bytes, one of 201, and a hidden name.
    (
        b"mkdir /.\nmkdir /x:y\nmkdir /aaaaaaaaaaaaaaaaaaaaaaaaaaaaaaaaaaaaaaaaaaaaaaaaaaaaaaaaaaaaaaaaaaaaaaaaaaaaaaaaaaaaaaaaaaaaaaaaaaaaaaaaaaaaaaaaaaaaaaaaaaaaaaaaaaaaaaaaaaaaaaaaaaaaaaaaaaaaaaaaaaaaaaaaaaaaaaaaaaaaaaaaaaaaaaaaaaaaaaaa\nmkdir /aaaaaaaaaaaaaaaaaaaaaaaaaaaaaaaaaaaaaaaaaaaaaaaaaaaaaaaaaaaaaaaaaaaaaaaaaaaaaaaaaaaaaaaaaaaaaaaaaaaaaaaaaaaaaaaaaaaaaaaaaaaaaaaaaaaaaaaaaaaaaaaaaaaaaaaaaaaaaaaaaaaaaaaaaaaaaaaaaaaaaaaaaaaaaaaaaaaaaaaaa\nmkdir /.deleted.x\n",
        "refused 1 BadPath\nrefused 1 BadPath\nok\nrefused 1 BadPath\nrefused 2 HiddenName\n",
    ),
    // Moves into itself, and into a directory.
    (
        b"mkdir /a/b\nmv /a /a/b/c\nmkdir /d\ncreate /f\nmv /f /d\nls /d\nls /\n",
        "ok\nrefused 8 IntoItself\nok\nok\nok\nok f\nok a/ d/\n",
    ),
    // An upgrade that is rolled back.
    (
        b"rollingUpgrade query\nrollingUpgrade prepare\nrollingUpgrade rollback\nrollingUpgrade query\n",
        "ok ordinary 0\nok 1\nok 2\nok ordinary 2\n",
    ),
    // One that is rolled back behind a move and a removal.
    (
        b"mkdir /a/b\ncreate /a/f\nrollingUpgrade prepare\nmv /a /c\nrm -r /c\nls /\nrollingUpgrade rollback\nls /a\n",
        "ok\nok\nok 1\nok\nok /.deleted.00000000000000000000.00000000000000000001.c\nok\nok 2\nok b/ f\n",
    ),
    // One that is rolled back behind a write too.
    (
        b"mkdir /a/b\ncreate /a/f\nwrite /a/f 0 61\nrollingUpgrade prepare\nwrite /a/f 0 62\nmv /a /c\nrm -r /c\nls /\nrollingUpgrade rollback\nls /a\nread /a/f 0 2\n",
        "ok\nok\nok\nok 1\nok\nok\nok /.deleted.00000000000000000000.00000000000000000001.c\nok\nok 2\nok b/ f\nok 61\n",
    ),
    // Lines that are refused, those about nodes and messages among them.
    (
        b"frob\nmkdir\nwrite /f 0 6\nrm /x\nrm /\nread /x 0 1\nundelete /x\nmkdir /a/b\nrm /a\nhold on forward\nbeat 0\ntick\nrestart master\nlose 0 1\n",
        "refused 34 BadLine\nrefused 34 BadLine\nrefused 34 BadLine\nok false\nrefused 9 IsRoot\nrefused 3 NotFound\nrefused 38 NotHidden\nok\nrefused 7 NotEmpty\nrefused 34 BadLine\nrefused 34 BadLine\nrefused 34 BadLine\nrefused 34 BadLine\nrefused 34 BadLine\n",
    ),
];

#[test]
fn scripts_are_answered_as_on_one_thread(rt: HostRuntime) -> Result<(), Fail> {
    for (script, wanted) in SCRIPTS.iter() {
        let output = output_of(&rt, rt.alloc(), 3, script)?;
        assert_eq!(rt; output.as_str(), *wanted);
    }
    Ok(())
}

/// An upgrade in which a file is written to, and who has its chunk when it is rolled back.
const ROLLED_BACK: &'static [u8] =
    b"create /f\nwrite /f 0 61\nrollingUpgrade prepare\nwrite /f 0 62\nrollingUpgrade rollback\nread /f 0 2\nstat /f\n";

/// By how many servers there are, who has the chunk: each of them.
const MEMBERS: [(u64, &'static str); 3] = [
    (3, "ok\nok\nok 1\nok\nok 2\nok 61\nok file 1 1/1/0,1,2\n"),
    (
        8,
        "ok\nok\nok 1\nok\nok 2\nok 61\nok file 1 1/1/0,1,2,3,4,5,6,7\n",
    ),
    (
        16,
        "ok\nok\nok 1\nok\nok 2\nok 61\nok file 1 1/1/0,1,2,3,4,5,6,7,8,9,10,11,12,13,14,15\n",
    ),
];

#[test]
fn a_rollback_leaves_each_server_as_a_member(rt: HostRuntime) -> Result<(), Fail> {
    for (servers, wanted) in MEMBERS.iter() {
        let output = output_of(&rt, rt.alloc(), *servers, ROLLED_BACK)?;
        assert_eq!(rt; output.as_str(), *wanted);
    }
    Ok(())
}
