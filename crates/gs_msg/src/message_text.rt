// Messages as they stand in a line.
use crate::body::{Body, Given};
use crate::chunk::{Asked, Chunk};
use crate::lists::Bytes;
use crate::message::Message;
use crate::op::Op;
use crate::text::{Hex, ImageText, SealedText};
use gs_base::{Handle, Refusal};
use gs_replica::EditOutcome;
use std::fmt;

impl fmt::Display for Op {
    ghost use Rattle.std.specs.Prelude.{Some};
    ghost use Rattle.gs_msg.specs.Texts.{op_text};

    ghost output = { λ o. Some (op_text o) };

    fn fmt<W: fmt::Write>(&self, f: &mut fmt::Formatter<W>) -> fmt::Result {
        match self {
            Op::Write { offset, length } => write!(f, "write {offset} {length}"),
            Op::Append { length } => write!(f, "append {length}"),
            Op::Pad => f.write_str("pad"),
        }
    }
}

impl fmt::Display for Asked {
    ghost use Rattle.std.specs.Prelude.{Some};
    ghost use Rattle.gs_msg.specs.Texts.{asked_text};

    ghost output = { λ a. Some (asked_text a) };

    fn fmt<W: fmt::Write>(&self, f: &mut fmt::Formatter<W>) -> fmt::Result {
        match self {
            Asked::Bytes { offset, length } => write!(f, "bytes {offset} {length}"),
            Asked::Length => f.write_str("length"),
            Asked::Digest(block) => write!(f, "digest {block}"),
        }
    }
}

impl fmt::Display for Given {
    ghost use Rattle.std.specs.Prelude.{Some};
    ghost use Rattle.gs_msg.specs.Texts.{given_text};

    ghost output = { λ g. Some (given_text g) };

    fn fmt<W: fmt::Write>(&self, f: &mut fmt::Formatter<W>) -> fmt::Result {
        match self {
            Given::Bytes(bytes) => write!(f, "bytes {bytes}"),
            Given::Length(length) => write!(f, "length {length}"),
            Given::Digest(digest) => {
                let digest = Hex(digest);
                write!(f, "digest {digest}")
            }
        }
    }
}

/// What an edit answered, or the line of the refusal.
#[derive(Drop)]
struct Edited<'a>(&'a Result<EditOutcome, Refusal>);

impl fmt::Display for Edited<'_> {
    ghost use Rattle.std.specs.Prelude.{Some};
    ghost use Rattle.gs_msg.specs.Texts.{outcome_text, result_text};

    ghost output = { λ e. Some (result_text outcome_text e.0.now) };

    fn fmt<W: fmt::Write>(&self, f: &mut fmt::Formatter<W>) -> fmt::Result {
        match self.0 {
            Ok(EditOutcome::Written) => f.write_str("written"),
            Ok(EditOutcome::Appended(offset)) => write!(f, "appended {offset}"),
            Ok(EditOutcome::Padded) => f.write_str("padded"),
            Err(refusal) => write!(f, "{refusal}"),
        }
    }
}

/// The bytes that a forward carries, or a dash.
#[derive(Drop)]
struct Carried<'a>(&'a Option<Bytes>);

impl fmt::Display for Carried<'_> {
    ghost use Rattle.std.specs.Prelude.{Some};
    ghost use Rattle.gs_msg.specs.Texts.{carried_bytes_text};

    ghost output = { λ c. Some (carried_bytes_text c.0.now) };

    fn fmt<W: fmt::Write>(&self, f: &mut fmt::Formatter<W>) -> fmt::Result {
        match self.0 {
            Some(bytes) => write!(f, "{bytes}"),
            None => f.write_str("-"),
        }
    }
}

/// What is said of a chunk, with the chunk.
#[derive(Drop)]
struct Said<'a> {
    handle: Handle,
    chunk: &'a Chunk,
}

impl fmt::Display for Said<'_> {
    ghost use Rattle.std.specs.Prelude.{Some};
    ghost use Rattle.gs_msg.specs.MessageTexts.{said_text};

    ghost output = { λ s. Some (said_text s.handle s.chunk.now) };

    fn fmt<W: fmt::Write>(&self, f: &mut fmt::Formatter<W>) -> fmt::Result {
        let handle = self.handle;
        match self.chunk {
            Chunk::Create(stamp)
            | Chunk::Advance(stamp)
            | Chunk::Renew(stamp)
            | Chunk::Bad(stamp) => write!(f, "{handle} {stamp}"),
            Chunk::Promised {
                stamp,
                count,
                carried,
            } => write!(f, "{handle} {stamp} {count} {carried}"),
            Chunk::Unpromised { stamp, refusal } | Chunk::Nack { stamp, refusal } => {
                write!(f, "{handle} {stamp} {refusal}")
            }
            Chunk::Grant(grant) => {
                let stamp = grant.stamp;
                let members = grant.members;
                let end = grant.end.0;
                write!(f, "{handle} {stamp} {members} {end}")
            }
            Chunk::Renewed { stamp, end } => {
                let end = end.0;
                write!(f, "{handle} {stamp} {end}")
            }
            Chunk::Edit { req, stamp, op } => write!(f, "{req} {handle} {stamp} {op}"),
            Chunk::Forward {
                stamp,
                number,
                req,
                op,
                bytes,
            } => {
                let bytes = Carried(bytes);
                write!(f, "{handle} {stamp} {number} {req} {op} {bytes}")
            }
            Chunk::Ack { stamp, count } => write!(f, "{handle} {stamp} {count}"),
            Chunk::Fetch {
                req,
                stamp,
                epoch,
                asked,
            } => write!(f, "{req} {handle} {stamp} {epoch} {asked}"),
            Chunk::CopyOut {
                stamp,
                target,
                with_sealed,
            } => write!(f, "{handle} {stamp} {target} {with_sealed}"),
            Chunk::CopyIn {
                stamp,
                image,
                sealed,
            } => {
                let image = ImageText(image);
                let sealed = SealedText(sealed);
                write!(f, "{handle} {stamp} {image} {sealed}")
            }
            Chunk::Drop { epoch, promise } => write!(f, "{epoch} {handle} {promise}"),
        }
    }
}

impl fmt::Display for Body {
    ghost use Rattle.std.specs.Prelude.{Some};
    ghost use Rattle.gs_msg.specs.MessageTexts.{fields_text};

    ghost output = { λ b. Some (fields_text b) };

    /// The fields, without the kind.
    fn fmt<W: fmt::Write>(&self, f: &mut fmt::Formatter<W>) -> fmt::Result {
        match self {
            Body::About(handle, chunk) => {
                let handle = *handle;
                let said = Said { handle, chunk };
                write!(f, "{said}")
            }
            Body::Call { req, call } => write!(f, "{req} {call}"),
            Body::Reply { req, result } => match result {
                Ok(answer) => write!(f, "{req} {answer}"),
                Err(refusal) => write!(f, "{req} {refusal}"),
            },
            Body::Push { req, bytes } => write!(f, "{req} {bytes}"),
            Body::Done { req, result } => {
                let result = Edited(result);
                write!(f, "{req} {result}")
            }
            Body::Bytes { req, result } => match result {
                Ok(given) => write!(f, "{req} {given}"),
                Err(refusal) => write!(f, "{req} {refusal}"),
            },
            Body::MakeCopy {
                handle,
                at,
                new_handle,
                stamp,
            } => write!(f, "{handle} {at} {new_handle} {stamp}"),
            Body::Report { epoch, replicas } => write!(f, "{epoch} {replicas}"),
            Body::Epoch { epoch, end } => write!(f, "{epoch} {end}"),
            Body::Learned { epoch, handles } => write!(f, "{epoch} {handles}"),
            Body::Behind { epoch } => write!(f, "{epoch}"),
        }
    }
}

impl fmt::Display for Message {
    ghost use Rattle.std.specs.Prelude.{Some};
    ghost use Rattle.gs_msg.specs.MessageTexts.{message_text};

    ghost output = { λ m. Some (message_text m) };

    /// The kind, the sender, the receiver, and the fields of the kind in order, with single spaces between them.
    fn fmt<W: fmt::Write>(&self, f: &mut fmt::Formatter<W>) -> fmt::Result {
        let kind = self.body.kind().name();
        let from = self.from;
        let to = self.to;
        let body = &self.body;
        write!(f, "{kind} {from} {to} {body}")
    }
}
