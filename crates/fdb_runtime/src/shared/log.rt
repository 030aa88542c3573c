use crate::shared::waiting::{take_lock, wait_while};
use fdb_keys::Refusal;
use fdb_sections::{AckMessage, DatabaseName, LogAt, LogMessage, LogState, PullMachine};
use std::sync::{Condvar, Mutex, Wait};

/// A log that threads share.
#[derive(Drop)]
pub(crate) struct SharedLog<B: DatabaseName> {
    state: Mutex<LogState<B>>,
    changed: Condvar,
}

impl<B: DatabaseName> SharedLog<B> {
    /// The log, with nothing to wait for. It takes no memory.
    pub(crate) fn new(at: LogAt<B>) -> Self {
        SharedLog {
            state: Mutex::new(LogState::new(at)),
            changed: Condvar::new(),
        }
    }

    /// Takes a message in its turn: waits until the entries before the message's are taken. Refused for the reason for
    /// which nothing is pushed any more, if there is one, else as `LogAt::push` refuses it.
    pub(crate) fn push<R: Wait>(
        &self,
        rt: &R,
        message: &LogMessage<B>,
    ) -> Result<AckMessage<B>, Refusal> {
        let prev = message.prev();
        let mut state = wait_while(
            rt,
            &self.state,
            &self.changed,
            |state| state.is_before(prev),
        );
        let answer = state.push(message);
        drop(state);
        self.changed.notify_all();
        answer
    }

    /// Waits until there is a message after the version, or the log has ended, and lends the log to the pull, which
    /// takes what there is.
    pub(crate) fn peek<R: Wait>(&self, rt: &R, after: u64, pull: &mut PullMachine<B>) {
        let state = wait_while(
            rt,
            &self.state,
            &self.changed,
            |state| state.is_behind(after),
        );
        pull.peek_at(&state);
    }

    /// Lends the log to the pull, which has it drop what was applied. It takes no memory.
    pub(crate) fn drop_applied<R: Wait>(&self, rt: &R, pull: &mut PullMachine<B>) {
        let mut state = take_lock(rt, &self.state);
        pull.drop_at(&mut state);
    }

    /// Nothing is pushed any more, for the first reason that was given, and nobody waits any longer. It takes no
    /// memory.
    pub(crate) fn end<R: Wait>(&self, rt: &R, why: Refusal) {
        take_lock(rt, &self.state).end(why);
        self.changed.notify_all();
    }

    /// Whether the log has failed. It takes no memory.
    pub(crate) fn is_failed<R: Wait>(&self, rt: &R) -> bool {
        take_lock(rt, &self.state).is_failed()
    }
}
