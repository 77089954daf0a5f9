//! What is on its way to one end of a link.
ghost use Rattle.std.specs.Prelude.{◌≡◌, ◌⊎◌, ◌↔◌, ◌<◌, ◌≤◌, ◌++◌, ◌∷◌, [], length, drop, nat_le, slice_get, IfOk, IfErr, OnOk, OnErr, IsErrOf};
ghost use Rattle.std.specs.Option.{option_copied};
ghost use Rattle.bep_record.specs.declared.limits.TheConstants.{MAX_MESSAGES};
ghost use Rattle.bep_machine.specs.Link.{first_of_queue};
ghost use Rattle.bep_machine.specs.Sound.{IsSoundQueue};
ghost use Rattle.bep_links.specs.declared.error.LinkError.TheVariants.{Memory};

use crate::LinkError;
use bep_machine::{Message, message_is_sound};
use bep_record::MAX_MESSAGES;
use std::alloc::{AllocError, Global};
use std::collections::VecDeque;
use std::marker::Model;

/// The messages on their way to one end of a link, the first to arrive first; at most 1024.
pub(crate) struct Queue {
    messages: VecDeque<Message>,
}

// By hand: a caller's proof then sees one call where it lets go of one, and not each field (docs/developing.md).
impl Drop for Queue {
    fn drop(self) {
        let Queue { messages: _ } = self;
    }
}

impl Model for Queue {
    ghost use Rattle.std.specs.Prelude.{List};
    ghost use Rattle.bep_machine.specs.declared.message.Message.{Message};
    ghost use Rattle.bep_machine.specs.Sound.{IsSoundQueue};

    ghost Value = { List Message };

    ghost view = { λ queue. queue.messages.items };

    ghost invariant = { λ queue. IsSoundQueue queue.messages.items };
}

impl Queue {
    /// The queue without messages. It takes no memory.
    pub(crate) fn new(alloc: Global) -> Self
        ensures { result ≡ [] }
    {
        Queue {
            messages: VecDeque::new(alloc),
        }
    }

    /// There are at most 1024, and those with records have batches of well-formed ones. It does nothing.
    pub(crate) fn queue_is_sound(&self)
        ensures { IsSoundQueue self.now }
    {
        let _ = &self.messages;
    }

    /// Whether no message more can be added.
    pub(crate) fn is_full(&self) -> bool
        ensures value { result ≡ nat_le MAX_MESSAGES (length self.now) }
        ensures few { length self.now ≤ MAX_MESSAGES }
    {
        self.messages.len() >= MAX_MESSAGES
    }

    /// The message at this place, from 0.
    pub(crate) fn get(&self, place: usize) -> Option<&Message>
        ensures value { option_copied result ≡ slice_get self.now place }
        ensures few { length self.now ≤ MAX_MESSAGES }
    {
        self.messages.get(place)
    }

    /// Adds the message last. Refuses `LinkFull` exactly where there are 1024; after an error the queue is as before.
    pub(crate) fn push(&mut self, message: Message) -> Result<(), LinkError>
        ensures ok { OnOk result (self.new ≡ self.old ++ message ∷ []) }
        ensures full { IsErrOf result LinkError.LinkFull ↔ (MAX_MESSAGES ≤ length self.old) }
        ensures only { IfErr result (λ e. (e ≡ LinkError.LinkFull) ⊎ (e ≡ LinkError.Memory)) }
        ensures err { OnErr result (self.new ≡ self.old) }
    {
        if self.is_full() {
            return Err(LinkError::LinkFull);
        }
        self.add(message)?;
        Ok(())
    }

    // Adds the message last, where there is room for it; without memory the queue is as before.
    fn add(&mut self, message: Message) -> Result<(), AllocError>
        requires { length self.old < MAX_MESSAGES }
        ensures ok { OnOk result (self.new ≡ self.old ++ message ∷ []) }
        ensures err { OnErr result (self.new ≡ self.old) }
    {
        message_is_sound(&message);
        self.messages.push_back(message)?;
        Ok(())
    }

    /// Takes the first message. It takes no memory.
    pub(crate) fn pop(&mut self) -> Option<Message>
        ensures first { result ≡ first_of_queue self.old }
        ensures rest { self.new ≡ drop 1 self.old }
    {
        self.messages.pop_front()
    }

    /// Drops all messages. It takes no memory.
    pub(crate) fn clear(&mut self)
        ensures { self.new ≡ [] }
    {
        self.messages.clear();
    }

    /// An equal queue of its own, or want of memory.
    pub(crate) fn copy(&self, alloc: Global) -> Result<Self, AllocError>
        ensures { IfOk result (λ made. made ≡ self.now) }
    {
        Ok(Queue {
            messages: copy_of(&self.messages, alloc)?,
        })
    }
}

// Equal messages of their own, in order.
fn copy_of(messages: &VecDeque<Message>, alloc: Global) -> Result<VecDeque<Message>, AllocError>
    ensures { IfOk result (λ made. made.items ≡ messages.now.items) }
{
    let mut made = VecDeque::with_capacity(alloc, messages.len())?;
    for message in messages.iter() {
        made.push_back(message.copy(alloc)?)?;
    }
    Ok(made)
}
