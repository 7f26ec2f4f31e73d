use gs_base::{Config, Refusal};
use gs_shell::RunFault;
use std::alloc::{AllocError, Global};
use std::io::{self, BufRead, ErrorKind, Read, Write};
use std::test::Fail;

/// A reader that gives so many bytes at a time. A weak one is interrupted in between, and fails behind the last.
#[derive(Drop)]
struct Input<'a> {
    rest: &'a [u8],
    most: usize,
    is_weak: bool,
    calls: u64,
}

impl<'a> Input<'a> {
    fn whole(script: &'a [u8]) -> Input<'a> {
        Input {
            rest: script,
            most: usize::MAX,
            is_weak: false,
            calls: 0,
        }
    }

    fn weak(script: &'a [u8], most: usize) -> Input<'a> {
        Input {
            rest: script,
            most,
            is_weak: true,
            calls: 0,
        }
    }
}

impl Read for Input<'_> {
    fn read(&mut self, _buf: &mut [u8]) -> io::Result<usize> {
        Err(io::Error::from(ErrorKind::Other))
    }
}

impl BufRead for Input<'_> {
    fn fill_buf(&mut self) -> io::Result<&[u8]> {
        self.calls = self.calls.wrapping_add(1);
        if self.is_weak && self.calls % 2 == 0 {
            return Err(io::Error::from(ErrorKind::Interrupted));
        }
        if self.is_weak && self.rest.is_empty() {
            return Err(io::Error::from(ErrorKind::BrokenPipe));
        }
        if self.most < self.rest.len() {
            return Ok(&self.rest[..self.most]);
        }
        Ok(self.rest)
    }

    fn consume(&mut self, amount: usize) {
        self.rest = &self.rest[amount.min(self.rest.len())..];
    }
}

/// A writer that takes some bytes more, and then fails. It may mark by a bar where it is flushed.
#[derive(Drop)]
struct Output {
    written: Vec<u8>,
    room: usize,
    marks_flushes: bool,
}

impl Output {
    fn new(alloc: Global, room: usize, marks_flushes: bool) -> Output {
        Output {
            written: Vec::new(alloc),
            room,
            marks_flushes,
        }
    }
}

impl Write for Output {
    fn write(&mut self, buf: &[u8]) -> io::Result<usize> {
        let taken = buf.len().min(self.room);
        if taken < buf.len() && taken == 0 {
            return Err(io::Error::from(ErrorKind::StorageFull));
        }
        self.written.extend_from_slice(&buf[..taken])?;
        self.room -= taken;
        Ok(taken)
    }

    fn flush(&mut self) -> io::Result<()> {
        if self.marks_flushes {
            self.written.extend_from_slice(b"|")?;
        }
        Ok(())
    }
}

/// Three servers in two racks, each chunk on so many of them, and chunks of four blocks of so many bytes.
fn store_of(replicas: u64, block: u64) -> Result<Config, Refusal> {
    Config::new(3, 2, replicas, block, block.wrapping_mul(4))
}

/// How a run ended, as its output is followed by it: nothing where it went to the end of its input.
fn ending(ended: &Result<(), RunFault>) -> &'static str {
    match ended {
        Ok(()) => "",
        Err(RunFault::Read) => "[Read]",
        Err(RunFault::Write) => "[Write]",
        Err(RunFault::Refused(_)) => "[Refused]",
    }
}

/// What a run of a new store writes, and how it ended.
fn told(
    alloc: Global,
    config: Config,
    mut input: Input,
    mut output: Output,
) -> Result<String, Refusal> {
    let ended = gs_shell::run(alloc, config, &mut input, &mut output);
    output.written.extend_from_slice(ending(&ended).as_bytes())?;
    String::from_utf8(output.written)
        .ok()
        .ok_or(Refusal::BadLine)
}

/// What a run of a new store writes for a script.
fn output_of(alloc: Global, config: Config, script: &[u8]) -> Result<String, Refusal> {
    let output = Output::new(alloc, usize::MAX, false);
    told(alloc, config, Input::whole(script), output)
}

/// A script, and what a run of it writes.
type Row<'a> = (&'a [u8], &'a str);

/// The first of some scripts that a new store answers otherwise, by its place, with what it writes; or nothing.
fn fault_in(alloc: Global, config: Config, rows: &[Row]) -> Result<String, Refusal> {
    for (place, (script, wanted)) in rows.iter().enumerate() {
        let output = output_of(alloc, config, script)?;
        if output.as_str() != *wanted {
            return Ok(format!(in alloc; "script {place}: {output}")?);
        }
    }
    Ok(String::new(alloc))
}

/// Paths and names.
const PATHS_AND_NAMES: [Row<'static>; 4] = [
    // A directory that is there again, and a file at its place.
    (
        b"mkdir /a/b\nmkdir /a/b\ncreate /a\n",
        "ok\nok\nrefused 4 Exists\n",
    ),
    // Moves into itself, and into a directory.
    (
        b"mkdir /a/b\nmv /a /a/b/c\nmkdir /d\ncreate /f\nmv /f /d\nls /d\nls /\n",
        "ok\nrefused 8 IntoItself\nok\nok\nok\nok f\nok a/ d/\n",
    ),
    // Two elements that are none, one of 200 bytes, one of 201, and a hidden name.
    (
        b"mkdir /.\nmkdir /x:y\nmkdir /aaaaaaaaaaaaaaaaaaaaaaaaaaaaaaaaaaaaaaaaaaaaaaaaaaaaaaaaaaaaaaaaaaaaaaaaaaaaaaaaaaaaaaaaaaaaaaaaaaaaaaaaaaaaaaaaaaaaaaaaaaaaaaaaaaaaaaaaaaaaaaaaaaaaaaaaaaaaaaaaaaaaaaaaaaaaaaaaaaaaaaaaaaaaaaaaaaaaaaaa\nmkdir /aaaaaaaaaaaaaaaaaaaaaaaaaaaaaaaaaaaaaaaaaaaaaaaaaaaaaaaaaaaaaaaaaaaaaaaaaaaaaaaaaaaaaaaaaaaaaaaaaaaaaaaaaaaaaaaaaaaaaaaaaaaaaaaaaaaaaaaaaaaaaaaaaaaaaaaaaaaaaaaaaaaaaaaaaaaaaaaaaaaaaaaaaaaaaaaaaaaaaaaaa\nmkdir /.deleted.x\n",
        "refused 1 BadPath\nrefused 1 BadPath\nok\nrefused 1 BadPath\nrefused 2 HiddenName\n",
    ),
    // A move that would end in 65 elements, and one that ends in 64.
    (
        b"mkdir /x/y\nmkdir /d/d/d/d/d/d/d/d/d/d/d/d/d/d/d/d/d/d/d/d/d/d/d/d/d/d/d/d/d/d/d/d/d/d/d/d/d/d/d/d/d/d/d/d/d/d/d/d/d/d/d/d/d/d/d/d/d/d/d/d/d/d\nmkdir /e/d/d/d/d/d/d/d/d/d/d/d/d/d/d/d/d/d/d/d/d/d/d/d/d/d/d/d/d/d/d/d/d/d/d/d/d/d/d/d/d/d/d/d/d/d/d/d/d/d/d/d/d/d/d/d/d/d/d/d/d/d/d\nmv /x /e/d/d/d/d/d/d/d/d/d/d/d/d/d/d/d/d/d/d/d/d/d/d/d/d/d/d/d/d/d/d/d/d/d/d/d/d/d/d/d/d/d/d/d/d/d/d/d/d/d/d/d/d/d/d/d/d/d/d/d/d/d/d\nmv /x /d/d/d/d/d/d/d/d/d/d/d/d/d/d/d/d/d/d/d/d/d/d/d/d/d/d/d/d/d/d/d/d/d/d/d/d/d/d/d/d/d/d/d/d/d/d/d/d/d/d/d/d/d/d/d/d/d/d/d/d/d/d\n",
        "ok\nok\nok\nrefused 1 BadPath\nok\n",
    ),
];

/// Files and their bytes.
const FILES: [Row<'static>; 3] = [
    // A write behind the end, over two chunks: what lies before it is zeros.
    (
        b"create /f\nwrite /f 14 616263\nread /f 0 32\nstat /f\n",
        "ok\nok\nok 0000000000000000000000000000616263\nok file 17 1/1/0,1,2 2/1/0,1,2\n",
    ),
    // A record of more than a quarter of a chunk is refused. One that no longer fits goes to the next chunk, and zeros
    // fill the one before.
    (
        b"create /f\nappend /f 61626364\nappend /f 6162636465\nwrite /f 4 616161616161616161\nappend /f 7a7a7a7a\nread /f 12 8\nstat /f\n",
        "ok\nok 0\nrefused 26 TooLong\nok\nok 16\nok 610000007a7a7a7a\nok file 20 1/1/0,1,2 2/1/0,1,2\n",
    ),
    // A write past 4,096 chunks is refused and changes nothing, and the file takes later ones.
    (
        b"create /f\nwrite /f 65536 61\nstat /f\nwrite /f 0 61\nread /f 0 4\n",
        "ok\nrefused 25 Range\nok file 0\nok\nok 61\n",
    ),
];

/// Digests, of the examples of FIPS 180-4.
const DIGESTS: [Row<'static>; 2] = [
    // Of `abc`. There is none of a block behind the last.
    (
        b"create /f\nwrite /f 0 616263\ndigest /f 0 0\ndigest /f 0 1\n",
        "ok\nok\nok ba7816bf8f01cfea414140de5dae2223b00361a396177a9cb410ff61f20015ad\nrefused 25 Range\n",
    ),
    // Of 56 bytes, which are padded into two blocks of the digest.
    (
        b"create /f\nwrite /f 0 6162636462636465636465666465666765666768666768696768696a68696a6b696a6b6c6a6b6c6d6b6c6d6e6c6d6e6f6d6e6f706e6f7071\ndigest /f 0 0\n",
        "ok\nok\nok 248d6a61d20638b8e5c026930c3e6039a33ce45964ff2167f6ecedd419db06c1\n",
    ),
];

/// What is deleted, comes back and is removed.
const DELETION_AND_SCAN: [Row<'static>; 5] = [
    // Deletions of nothing, of the root, and of a directory with a child.
    (
        b"rm /x\nrm /\nmkdir /a/b\nrm /a\nrm -r\nrm -r /a\n",
        "ok false\nrefused 9 IsRoot\nok\nrefused 7 NotEmpty\nrefused 1 BadPath\nok /.deleted.00000000000000000000.00000000000000000001.a\n",
    ),
    // Hidden children are listed by their own path alone, and hinder no deletion.
    (
        b"mkdir /a/b\nrm /a/b\nls /a\nls /a/.deleted.00000000000000000000.00000000000000000001.b\nrm /a\n",
        "ok\nok /a/.deleted.00000000000000000000.00000000000000000001.b\nok\nok\nok /.deleted.00000000000000000000.00000000000000000002.a\n",
    ),
    // A directory is deleted with its hidden child, and is listed by its hidden path from then on.
    (
        b"mkdir /d\ncreate /d/f\nrm /d/f\nrm /d\nls /\nls /.deleted.00000000000000000000.00000000000000000002.d\n",
        "ok\nok\nok /d/.deleted.00000000000000000000.00000000000000000001.f\nok /.deleted.00000000000000000000.00000000000000000002.d\nok\nok\n",
    ),
    // A child beside a hidden one hinders the deletion.
    (
        b"mkdir /d\ncreate /d/f\nrm /d/f\ncreate /d/g\nrm /d\nls /\nls /.deleted.00000000000000000000.00000000000000000002.d\n",
        "ok\nok\nok /d/.deleted.00000000000000000000.00000000000000000001.f\nok\nrefused 7 NotEmpty\nok d/\nrefused 3 NotFound\n",
    ),
    // What was deleted comes back while it is hidden. A scan removes it once more than 259,200 seconds have gone, and then
    // a server drops its replica.
    (
        b"create /f\nwrite /f 0 61\nrm /f\nat 259199\nscan\nundelete /.deleted.00000000000000000000.00000000000000000001.f\nat 0\nrm /f\nat 259200\nscan\nat 259201\nscan\nbeat 0\nlose 0 1\n",
        "ok\nok\nok /.deleted.00000000000000000000.00000000000000000001.f\nok\nok 0 0\nok /f\nok\nok /.deleted.00000000000000000000.00000000000000000002.f\nok\nok 0 0\nok\nok 1 1\nok 1\nrefused 28 NoReplica\n",
    ),
];

/// Copies that share their chunks.
const SNAPSHOTS: [Row<'static>; 2] = [
    // A copy shares its chunk until one of both is written to.
    (
        b"create /f\nwrite /f 0 6162\nsnapshot /f /g\nwrite /f 0 78\nwrite /g 0 79\nread /f 0 2\nread /g 0 2\nstat /f\nstat /g\n",
        "ok\nok\nok\nok\nok\nok 7862\nok 7962\nok file 2 2/1/0,1,2\nok file 2 1/1/0,1,2\n",
    ),
    // Both are written to within an upgrade. A rollback gives back the chunk that they shared, and what was deleted.
    (
        b"create /f\nwrite /f 0 6162\nsnapshot /f /g\nrollingUpgrade prepare\nwrite /f 0 78\nwrite /g 0 79\nread /f 0 2\nread /g 0 2\nstat /f\nrm /f\nrollingUpgrade rollback\nstat /f\nread /g 0 2\n",
        "ok\nok\nok\nok 1\nok\nok\nok 7862\nok 7962\nok file 2 2/1/0,1,2\nok /.deleted.00000000000000000000.00000000000000000001.f\nok 2\nok file 2 1/2/0,1,2\nok 6162\n",
    ),
];

/// Upgrades that are kept or rolled back.
const UPGRADES: [Row<'static>; 4] = [
    // The epochs of an upgrade that is rolled back.
    (
        b"rollingUpgrade query\nrollingUpgrade prepare\nrollingUpgrade rollback\nrollingUpgrade query\n",
        "ok ordinary 0\nok 1\nok 2\nok ordinary 2\n",
    ),
    // A finalize forgets what a rollback would bring back.
    (
        b"rollingUpgrade prepare\nmkdir /a\nrollingUpgrade query\nrollingUpgrade finalize\nrollingUpgrade rollback\nls /\n",
        "ok 1\nok\nok upgrade 1\nok 2\nrefused 13 NotUpgrading\nok a/\n",
    ),
    // A file is written to, moved, deleted, and removed by a scan, and servers drop its replicas. A rollback brings it back
    // with its bytes: what is read right behind the prepare is read right behind the rollback.
    (
        b"create /f\nwrite /f 0 61626364\nmkdir /d\nrollingUpgrade prepare\nread /f 0 9\nwrite /f 0 7a\nappend /f 7979\nmv /f /d\nrm -r /d\nat 300000\nscan\nbeat 0\nbeat 1\nls /\nrollingUpgrade rollback\nread /f 0 9\nls /\nls /d\n",
        "ok\nok\nok\nok 1\nok 61626364\nok\nok 4\nok\nok /.deleted.00000000000000000000.00000000000000000001.d\nok\nok 1 1\nok 1\nok 1\nok\nok 2\nok 61626364\nok d/ f\nok\n",
    ),
    // The halves of a prepare, in their order and out of it.
    (
        b"rollback-commit\nprepare-commit\nprepare-begin\nprepare-begin\nmkdir /a\nprepare-commit\nprepare-commit\nrollingUpgrade finalize\nrollback-begin\n",
        "refused 13 NotUpgrading\nrefused 13 NotUpgrading\nok 0\nrefused 14 AlreadyUpgrading\nrefused 11 Preparing\nok 1\nrefused 14 AlreadyUpgrading\nok 2\nrefused 13 NotUpgrading\n",
    ),
];

/// Replicas that are lost, damaged and copied.
const COPIES: [Row<'static>; 5] = [
    // A lost replica is missed when its server reports, and made again.
    (
        b"create /f\nwrite /f 0 6161\nlose 1 1\nbeat 1\nstat /f\nreplicate\nstat /f\nreplicate\nread /f 0 2\n",
        "ok\nok\nok\nok 0\nok file 2 1/1/0,2\nok 1 1\nok file 2 1/1/0,1,2\nok none\nok 6161\n",
    ),
    // A damaged block is read from the next server. Its replica is left out, dropped and made again.
    (
        b"create /f\nwrite /f 0 61626364\ndamage 0 1 0\nread /f 0 4\nstat /f\nbeat 0\nreplicate\nstat /f\n",
        "ok\nok\nok\nok 61626364\nok file 4 1/1/1,2\nok 1\nok 1 0\nok file 4 1/1/0,1,2\n",
    ),
    // A rollback leaves out a replica that was damaged.
    (
        b"create /f\nwrite /f 0 61626364\nrollingUpgrade prepare\ndamage 0 1 0\nread /f 0 4\nrollingUpgrade rollback\nstat /f\n",
        "ok\nok\nok 1\nok\nok 61626364\nok 2\nok file 4 1/1/1,2\n",
    ),
    // A rollback takes the one server that still has the chunk as it was sealed.
    (
        b"create /f\nwrite /f 0 61\nrollingUpgrade prepare\nlose 0 1\nlose 1 1\nrollingUpgrade rollback\nstat /f\n",
        "ok\nok\nok 1\nok\nok\nok 2\nok file 1 1/1/2\n",
    ),
    // Where none has it, the rollback stays begun, and changes are refused.
    (
        b"create /f\nwrite /f 0 61\nrollingUpgrade prepare\nlose 0 1\nlose 1 1\nlose 2 1\nrollingUpgrade rollback\nrollingUpgrade query\nmkdir /x\n",
        "ok\nok\nok 1\nok\nok\nok\nrefused 16 Unrestored 1\nok rolling 2\nrefused 12 RollingBack\n",
    ),
];

/// Chunks that stand on two of three servers.
const TWO_OF_THREE: [Row<'static>; 2] = [
    // Each chunk stands in both racks, and first on servers that have the fewest.
    (
        b"create /a\nwrite /a 0 61\ncreate /b\nwrite /b 0 62\ncreate /c\nwrite /c 0 63\nstat /a\nstat /b\nstat /c\n",
        "ok\nok\nok\nok\nok\nok\nok file 1 1/1/0,1\nok file 1 2/1/1,2\nok file 1 3/1/0,1\n",
    ),
    // A copy that is made within an upgrade carries what was sealed: a rollback gives that back from the copy alone.
    (
        b"create /a\nwrite /a 0 61\ncreate /f\nwrite /f 0 62\nrm /a\nat 259201\nscan\nrollingUpgrade prepare\nwrite /f 0 63\nlose 2 2\nbeat 2\nreplicate\nread /f 0 1\nlose 1 2\nrollingUpgrade rollback\nread /f 0 1\nstat /f\n",
        "ok\nok\nok\nok\nok /.deleted.00000000000000000000.00000000000000000001.a\nok\nok 1 1\nok 1\nok\nok\nok 0\nok 2 0\nok 63\nok\nok 2\nok 62\nok file 1 2/1/0\n",
    ),
];

/// Messages that come late, twice or not at all.
const LOST_AND_HELD_MESSAGES: [Row<'static>; 5] = [
    // A forward that comes after a prepare is refused by its stamp. Its edit stands at the primary alone, and a rollback
    // keeps it.
    (
        b"create /f\nwrite /f 0 61\nhold on forward\nwrite /f 1 62\nhold off\nrollingUpgrade prepare\ndeliver 1\nrollingUpgrade rollback\nread /f 0 2\nstat /f\n",
        "ok\nok\nok\nrefused 29 Unsure\nok\nok 1\nrefused 22 Stamp 0.3\nok 2\nok 6162\nok file 2 1/1/0\n",
    ),
    // An edit that is handed over twice is done once.
    (
        b"create /f\nappend /f 6162\nhold on edit\nappend /f 6364\nhold off\ndeliver 1\ndeliver 1\nread /f 0 16\n",
        "ok\nok 0\nok\nrefused 29 Unsure\nok\nok\nok\nok 61626364\n",
    ),
    // Servers that missed an edit of an upgrade are left out once the lease is over. One of them drops its replica and gets
    // a copy, and a rollback gives all three what was sealed.
    (
        b"create /f\nwrite /f 0 6161\nrollingUpgrade prepare\nhold on forward\nwrite /f 0 62\nhold off\nat 60\nwrite /f 1 63\nbeat 1\nreplicate\nwrite /f 0 64\nread /f 0 2\nrollingUpgrade rollback\nread /f 0 2\nstat /f\n",
        "ok\nok\nok 1\nok\nrefused 29 Unsure\nok\nok\nok\nok 1\nok 1 1\nok\nok 6463\nok 2\nok 6161\nok file 2 1/1/0,1,2\n",
    ),
    // A grant comes when a rollback is begun and the master has begun again: it is refused by its epoch, and the commit ends
    // the rollback.
    (
        b"create /f\nwrite /f 0 61\nrollingUpgrade prepare\nhold on grant\nwrite /f 0 62\nhold off\nrollback-begin\nrestart master\ndeliver 2\nrollback-commit\nread /f 0 1\nrollingUpgrade rollback\n",
        "ok\nok\nok 1\nok\nrefused 20 NotPrimary\nok\nok 2\nok\nrefused 18 Epoch 2\nok 2\nok 61\nrefused 13 NotUpgrading\n",
    ),
    // Nothing is written where no server has heard of the upgrade, and it is once they hear of it.
    (
        b"create /f\nwrite /f 0 61\nhold on epoch\nrollingUpgrade prepare\nwrite /f 0 62\nhold off\ndeliver 1\nwrite /f 0 62\nrollingUpgrade rollback\nread /f 0 1\nstat /f\n",
        "ok\nok\nok\nok 1\nrefused 28 NoReplica\nok\nok\nok\nok 2\nok 61\nok file 1 1/1/0,1,2\n",
    ),
];

/// Lines that have all nodes tick.
const TICKS: [Row<'static>; 3] = [
    // A new store has nothing to do. Two words are no such line.
    (b"tick\ntick 0\nls /\n", "ok\nrefused 34 BadLine\nok\n"),
    // At the master: a copy that waits for servers which haven't answered is given up, and its lock with it.
    (
        b"create /f\nwrite /f 0 61\nhold on call\nsnapshot /f /g\nhold on advance\ndeliver 1\nls /f\ntick\nls /\n",
        "ok\nok\nok\nrefused 29 Unsure\nok\nok\nrefused 10 Locked\nok\nok f\n",
    ),
    // At a server: an edit that stands at the primary alone goes to the others, and is read there.
    (
        b"create /f\nwrite /f 0 61\nhold on forward\nwrite /f 1 62\nhold off\ntick\nlose 0 1\nread /f 0 2\n",
        "ok\nok\nok\nrefused 29 Unsure\nok\nok\nok\nok 6162\n",
    ),
];

/// Nodes that begin again.
const RESTARTS: [Row<'static>; 2] = [
    // A server begins again, and goes on with the replica that it kept.
    (
        b"create /f\nwrite /f 0 61\nrestart 0\nwrite /f 1 62\nread /f 0 2\n",
        "ok\nok\nok\nok\nok 6162\n",
    ),
    // The master begins again, and goes on with the names and chunks that its journal tells.
    (
        b"mkdir /a\ncreate /f\nwrite /f 0 61\nrestart master\nls /\nread /f 0 1\nwrite /f 1 62\nread /f 0 2\n",
        "ok\nok\nok\nok\nok a/ f\nok 61\nok\nok 6162\n",
    ),
];

/// Lines that are no requests, the ends of lines, and no line at all.
const BAD_LINES: [Row<'static>; 6] = [
    // No line at all.
    (b"", ""),
    // Lines that ask for nothing, and requests for what isn't there.
    (
        b"frob\nmkdir\nwrite /f 0 6\nread /x 0 1\nundelete /x\n",
        "refused 34 BadLine\nrefused 34 BadLine\nrefused 34 BadLine\nrefused 3 NotFound\nrefused 38 NotHidden\n",
    ),
    // A number above 18,446,744,073,709,551,615.
    (
        b"write /f 18446744073709551616 61\n",
        "refused 34 BadLine\n",
    ),
    // A letter that is no hexadecimal digit.
    (b"write /f 0 6g\n", "refused 34 BadLine\n"),
    // No kind of messages.
    (b"hold on nothing\n", "refused 34 BadLine\n"),
    // An empty line, two spaces in a row, a line that is not UTF-8, a carriage return that belongs to no end, one that does, and
    // a last line that has no end.
    (
        b"\nls  /\nls /\xff\nls /\r\r\nls /\r\nls /",
        "refused 34 BadLine\nrefused 34 BadLine\nrefused 34 BadLine\nrefused 1 BadPath\nok\nok\n",
    ),
];

#[test]
fn scripts_are_answered(rt: HostRuntime) -> Result<(), Fail> {
    for (name, (replicas, block), rows) in [
        ("paths and names", (3, 4), PATHS_AND_NAMES.as_slice()),
        ("files", (3, 4), FILES.as_slice()),
        ("digests", (3, 64), DIGESTS.as_slice()),
        ("deletion and scan", (3, 4), DELETION_AND_SCAN.as_slice()),
        ("snapshots", (3, 4), SNAPSHOTS.as_slice()),
        ("upgrades", (3, 4), UPGRADES.as_slice()),
        ("copies", (3, 4), COPIES.as_slice()),
        ("two of three", (2, 4), TWO_OF_THREE.as_slice()),
        ("lost and held", (3, 4), LOST_AND_HELD_MESSAGES.as_slice()),
        ("ticks", (3, 4), TICKS.as_slice()),
        ("restarts", (3, 4), RESTARTS.as_slice()),
        ("bad lines", (3, 4), BAD_LINES.as_slice()),
    ] {
        let config = store_of(replicas, block)?;
        assert_eq!(rt; fault_in(rt.alloc(), config, rows)?.as_str(), "", "{name}");
    }
    Ok(())
}

/// A line of so many bytes that begins as given and goes on with one byte, what stands behind it, and what a run of that writes.
type LongRow = (&'static [u8], u8, usize, &'static [u8], &'static str);

const LONG_LINES: [LongRow; 3] = [
    // One byte more than a line may have. The line behind such a one is answered.
    (
        b"mkdir /",
        b'a',
        1_048_577,
        b"\nls /\n",
        "refused 34 BadLine\nok\n",
    ),
    // As many bytes as a line may have.
    (
        b"mkdir /",
        b'a',
        1_048_576,
        b"\nls /\n",
        "refused 1 BadPath\nok\n",
    ),
    // A carriage return at the end of such a line is not counted.
    (
        b"ls ",
        b'/',
        1_048_576,
        b"\r\nls /\n",
        "refused 1 BadPath\nok\n",
    ),
];

fn long_line(
    alloc: Global,
    beginning: &[u8],
    byte: u8,
    length: usize,
    end: &[u8],
) -> Result<Vec<u8>, AllocError> {
    let mut script = beginning.to_vec(alloc)?;
    script.resize(length, byte)?;
    script.extend_from_slice(end)?;
    Ok(script)
}

/// What is answered otherwise than the row says, as [`fault_in`] tells it.
fn fault_in_long(alloc: Global, row: &LongRow) -> Result<String, Refusal> {
    let (beginning, byte, length, end, wanted) = *row;
    let script = long_line(alloc, beginning, byte, length, end)?;
    fault_in(alloc, store_of(3, 4)?, &[(&script, wanted)])
}

#[test]
fn long_lines(rt: HostRuntime) -> Result<(), Fail> {
    for row in &LONG_LINES {
        assert_eq!(rt; fault_in_long(rt.alloc(), row)?.as_str(), "");
    }
    Ok(())
}

/// A script that makes so many files after a prepare, and rolls back.
fn files_rolled_back(alloc: Global, count: u32) -> Result<String, AllocError> {
    let mut script = String::from_str(alloc, "rollingUpgrade prepare\n")?;
    for number in 0..count {
        let line = format!(in alloc; "create /f{number}\n")?;
        script.push_str(&line)?;
    }
    script.push_str("rollingUpgrade rollback\nls /\n")?;
    Ok(script)
}

fn rolled_back(alloc: Global, count: u32) -> Result<String, Refusal> {
    let script = files_rolled_back(alloc, count)?;
    output_of(alloc, store_of(3, 4)?, script.as_bytes())
}

// A rollback of many edits.
#[test]
fn rolls_back_many_edits(rt: HostRuntime) -> Result<(), Fail> {
    let output = rolled_back(rt.alloc(), 100_000)?;
    assert!(rt; output.as_str().split('\n').count() == 100_004);
    assert!(rt; output.as_str().ends_with("ok\nok 2\nok\n"));
    Ok(())
}

/// A script, how many bytes a weak reader gives at a time or that another gives all, how many bytes a writer takes, and what is
/// written, with a bar at each flush.
type Way<'a> = (&'a [u8], Option<usize>, usize, &'a str);

const WAYS: [Way<'static>; 5] = [
    // The answers to lines that came together are flushed together. The last line, which lacks its end, is not at hand.
    (
        b"ls /\nls /\nls /\nls /",
        None,
        usize::MAX,
        "ok\nok\nok\n|ok\n|",
    ),
    // Each answer is flushed where bytes come one by one, until a read fails.
    (
        b"ls /\nls /\nls /\n",
        Some(1),
        usize::MAX,
        "ok\n|ok\n|ok\n|[Read]",
    ),
    // So it is where each line comes by itself,
    (
        b"ls /\nls /\nls /\n",
        Some(5),
        usize::MAX,
        "ok\n|ok\n|ok\n|[Read]",
    ),
    // and where more than one line comes, but not the next one's end.
    (
        b"ls /\nls /\nls /\n",
        Some(9),
        usize::MAX,
        "ok\n|ok\n|ok\n|[Read]",
    ),
    // A write fails in the midst of an answer.
    (b"mkdir /a\nls /\nls /\n", None, 5, "ok\nok[Write]"),
];

fn told_in_a_way(alloc: Global, way: &Way) -> Result<String, Refusal> {
    let (script, weak, room, _) = *way;
    let input = match weak {
        Some(most) => Input::weak(script, most),
        None => Input::whole(script),
    };
    let output = Output::new(alloc, room, true);
    told(alloc, store_of(3, 4)?, input, output)
}

#[test]
fn flushes_before_a_read_and_stops_at_a_fault(rt: HostRuntime) -> Result<(), Fail> {
    for (place, way) in WAYS.iter().enumerate() {
        assert_eq!(rt; told_in_a_way(rt.alloc(), way)?.as_str(), way.3, "{place}");
    }
    Ok(())
}

// A line takes as many reads as it needs: here of 5,000 bytes that come one by one. The fourth line is lost where its read fails.
#[test]
fn a_line_takes_many_reads(rt: HostRuntime) -> Result<(), Fail> {
    let script = long_line(rt.alloc(), b"", b'x', 5_000, b"\nmkdir /a\nls /\nls")?;
    let wanted = "refused 34 BadLine\n|ok\n|ok a/\n|[Read]";
    let way = (script.as_slice(), Some(1), usize::MAX, wanted);
    assert_eq!(rt; told_in_a_way(rt.alloc(), &way)?.as_str(), wanted);
    Ok(())
}

// The error is that of the read that failed.
#[test]
fn a_line_fails_as_its_read(rt: HostRuntime) -> Result<(), Fail> {
    let mut input = Input::weak(b"ls", 1);
    let next = gs_shell_line::next_line(rt.alloc(), &mut input);
    assert!(rt;
        matches!(next, Err(e) if e.kind() == ErrorKind::BrokenPipe),
        "the kind"
    );
    Ok(())
}
