ghost use Rattle.std.specs.Prelude.{◌≡◌, ◌≤◌, ◌+◌, ◌↔◌, IsTrue, ◌∷◌, [], ◌++◌, Ok, IfOk, OnOk, OnErr, length, option_copied, slice_get};
ghost use Rattle.gs_base.specs.Calls.{FollowsOf};
ghost use Rattle.gs_msg.specs.Posts.{posted, message_at, without_message};

use crate::message::Message;
use gs_base::{Moment, Refusal, Refused};
use std::alloc::{AllocError, Global};
use std::marker::Model;

/// What was sent, and the moment of the event that sent it.
#[derive(Debug, Drop)]
pub struct Post {
    pub moment: Moment,
    /// The message, until it is given up or taken out.
    pub message: Option<Message>,
}

impl Post {
    /// Whether another is the same.
    pub fn is_same(&self, other: &Post) -> bool
        ensures { IsTrue result ↔ (self.now ≡ other.now) }
    {
        self.moment == other.moment && same_message(&self.message, &other.message)
    }

    /// The same, in memory of its own.
    pub fn copy(&self, alloc: Global) -> Result<Post, AllocError>
        ensures { IfOk result (λ post. post ≡ self.now) }
    {
        Ok(Post {
            moment: self.moment,
            message: copied_message(alloc, &self.message)?,
        })
    }
}

fn same_message(left: &Option<Message>, right: &Option<Message>) -> bool
    ensures { IsTrue result ↔ (left.now ≡ right.now) }
{
    match (left, right) {
        (Some(left), Some(right)) => left.is_same(right),
        (None, None) => true,
        _ => false,
    }
}

fn copied_message(alloc: Global, message: &Option<Message>) -> Result<Option<Message>, AllocError>
    ensures { IfOk result (λ copy. copy ≡ message.now) }
{
    Ok(match message {
        Some(message) => Some(message.copy(alloc)?),
        None => None,
    })
}

/// All that a node has sent, in order. A post's place in it never changes, also where its message is given up. Room for
/// more can be made first, so that sending takes no memory.
#[derive(Debug)]
pub struct Outbox {
    posts: Vec<Post>,
}

impl Drop for Outbox {
    fn drop(self) {
        let Self { posts: _ } = self;
    }
}

impl Model for Outbox {
    ghost use Rattle.std.specs.Prelude.{◌-◌};
    ghost use Rattle.std.specs.Vec.{vec_len, vec_capacity};
    ghost use Rattle.gs_msg.specs.Posts.{Posted, coded_posted};

    ghost Value = { Posted };

    ghost coded = { coded_posted };

    ghost view = { λ o. record { posts = o.posts.items; room = vec_capacity o.posts - vec_len o.posts } };
}

impl Outbox {
    pub fn new(alloc: Global) -> Outbox
        ensures { result.posts ≡ [] }
    {
        Outbox {
            posts: Vec::new(alloc),
        }
    }

    /// Makes room for so many more.
    pub fn reserve(&mut self, count: usize) -> Result<(), AllocError>
        ensures posts { self.new.posts ≡ self.old.posts }
        ensures room { OnOk result (count ≤ self.new.room) }
        ensures keeps { self.old.room ≤ self.new.room }
    {
        self.posts.reserve(count)
    }

    /// Sends one more, for which there is room. It takes no memory.
    pub fn send(&mut self, moment: Moment, message: Message)
        requires room { 1 ≤ self.old.room }
        ensures posts { self.new.posts ≡ self.old.posts ++ posted moment message ∷ [] }
        ensures left { self.old.room ≤ self.new.room + 1 }
    {
        let message = Some(message);
        self.posts.push(Post { moment, message }).unwrap();
    }

    /// Sends one more, and asks for memory where there is no room. Of what room there was it takes one at most. Where memory
    /// is refused the message is handed back, and the list is as it was.
    pub fn post(&mut self, moment: Moment, message: Message) -> Result<(), Refused<Message>>
        ensures posts { FollowsOf message (Ok (self.old.posts ++ posted moment message ∷ [])) result self.old.posts self.new.posts }
        ensures full { OnErr result (self.old.room ≡ 0) }
        ensures left { self.old.room ≤ self.new.room + 1 }
    {
        let message = Some(message);
        match self.posts.push(Post { moment, message }) {
            Ok(()) => Ok(()),
            Err(failed) => {
                let Post { moment: _, message } = failed.value;
                let given = message.unwrap();
                let refusal = Refusal::Memory;
                Err(Refused { refusal, given })
            }
        }
    }

    /// The post at a place, if so many were sent.
    pub fn get(&self, place: u64) -> Option<&Post>
        ensures { option_copied result ≡ slice_get self.now.posts place }
    {
        let Ok(index) = usize::try_from(place) else {
            return None;
        };
        self.posts.get(index)
    }

    /// Takes the message at a place out of the list, if it stands there still. It takes no memory.
    pub fn take(&mut self, place: u64) -> Option<Message>
        ensures message { result ≡ message_at self.old.posts place }
        ensures posts { self.new.posts ≡ without_message self.old.posts place }
        ensures room { self.new.room ≡ self.old.room }
    {
        let index = usize::try_from(place).ok()?;
        if index >= self.posts.len() {
            return None;
        }
        let post = &mut self.posts[index];
        post.message.take()
    }

    /// Gives the message at a place up. It takes no memory.
    pub fn forget(&mut self, place: u64)
        ensures posts { self.new.posts ≡ without_message self.old.posts place }
        ensures room { self.new.room ≡ self.old.room }
    {
        drop(self.take(place));
    }

    /// How many were sent.
    pub fn len(&self) -> usize
        ensures { result ≡ length self.now.posts }
    {
        self.posts.len()
    }

    pub fn as_slice(&self) -> &[Post]
        ensures { result.now ≡ self.now.posts }
    {
        &self.posts
    }
}
