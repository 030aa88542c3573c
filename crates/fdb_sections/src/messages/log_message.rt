ghost use Rattle.std.specs.Prelude.{◌≡◌};

use crate::known_front::KnownFront;
use crate::name::DatabaseName;
use fdb_log::LogMsg;
use std::marker::Model;

/// What a log is sent: its message of the last entry of the front.
#[derive(Drop)]
pub struct LogMessage<B: DatabaseName> {
    pub(crate) front: KnownFront<B>,
    pub(crate) message: LogMsg,
}

impl<B: DatabaseName> Model for LogMessage<B> {
    ghost use Rattle.fdb_sections.specs.Messages.{LogMsgAtFront, IsLastMessage};

    ghost Value = { LogMsgAtFront };

    ghost view = { λ sent. record { front = sent.front; message = sent.message } };

    ghost invariant = { λ sent. IsLastMessage B.config (record { front = sent.front; message = sent.message }) };
}

impl<B: DatabaseName> LogMessage<B> {
    /// The number of the log that it is for. It takes no memory, and O(1) time.
    pub fn log(&self) -> u32
        ensures { result ≡ self.now.message.log }
    {
        self.message.log
    }

    /// The version of the entry before the message's, 0 where there is none. It takes no memory, and O(1) time.
    pub fn prev(&self) -> u64
        ensures { result ≡ self.now.message.prev }
    {
        self.message.prev
    }
}
