//! What an action of a device did besides its effect.
ghost use Rattle.std.specs.Prelude.{◌≡◌};
ghost use Rattle.bep_peer.specs.Member.{nothing_told};
ghost use Rattle.bep_peer.specs.Within.{told_of};

use bep_machine::Message;

/// What the last action of a device did to the store of its folder, and what it sent.
#[derive(Debug)]
pub struct Trace {
    /// Which of its calls of the store failed, counted from 1.
    pub failed: Option<u32>,
    /// Whether it wrote a conflict copy.
    pub copied: bool,
    /// Two copies of the message that it sent.
    pub put: Option<(Message, Message)>,
}

// By hand: a caller's proof then sees one call where it lets go of one, and not each field (docs/developing.md).
impl Drop for Trace {
    fn drop(self) {
        let Trace {
            failed: _,
            copied: _,
            put: _,
        } = self;
    }
}

impl Trace {
    // Nothing failed, nothing was copied, and nothing was sent.
    pub(crate) fn nothing() -> Self
        ensures { result ≡ nothing_told }
    {
        Trace {
            failed: None,
            copied: false,
            put: None,
        }
    }

    // A folder told so much of its store.
    pub(crate) fn tell_of(&mut self, told: (Option<u32>, bool))
        ensures { self.new ≡ told_of (record { failed = told.0; copied = told.1 }) }
    {
        let (failed, copied) = told;
        self.failed = failed;
        self.copied = copied;
        self.tell_sent(None);
    }

    // This message was sent, of which these are two copies, or none was.
    pub(crate) fn tell_sent(&mut self, put: Option<(Message, Message)>)
        ensures { self.new ≡ record self.old { put = put } }
    {
        self.put = put;
    }
}
