// What a session and its open transaction are numbered by, and how that is given up.
ghost use Rattle.std.specs.Prelude.{◌≡◌, None};
ghost use Rattle.std.specs.Option.{option_map};
ghost use Rattle.fdb_client.specs.declared.program.Transcript.{Transcript as ATranscript};
ghost use Rattle.fdb_roles.specs.Sessions.{OfOpen};
ghost use Rattle.fdb_sections.specs.Sessions.{with_current};
ghost use Rattle.fdb_sections.specs.Sizes.{TellsSize};

use crate::name::DatabaseName;
use crate::session_state::SessionState;
use fdb_keys::Refusal;
use fdb_txn::TxnId;
use std::mem;

impl<B: DatabaseName> SessionState<B> {
    /// The session's number. It takes no memory, and O(1) time.
    pub fn number(&self) -> u32
        ensures { result ≡ self.now.number }
    {
        self.number
    }

    /// The number that the session's next transaction gets. It takes no memory, and O(1) time.
    pub fn next_number(&self) -> u64
        ensures { result ≡ self.now.next_number }
    {
        self.next_number
    }

    /// The id of the open transaction, if there is one. It takes no memory, and O(1) time.
    pub fn open_id(&self) -> Option<TxnId>
        ensures { result ≡ option_map (λ (transcript : ATranscript). transcript.id) self.now.current }
    {
        match &self.current {
            Some(txn) => Some(txn.transcript().id),
            None => None,
        }
    }

    /// How many bytes the open transaction would have, were it committed now: those of both bounds of each range of its
    /// read set and of its write set, and of its mutations. Refused as `NoTransaction` where none is open, as
    /// `TransactionTooLarge` where they are more than 10,000,000, and as `NoMemory`. It takes the time of
    /// `Txn::request`.
    pub fn size(&self) -> Result<u64, Refusal>
        ensures { OfOpen self.now.current result (λ transcript. TellsSize result transcript) }
    {
        match &self.current {
            Some(txn) => {
                let request = txn.request()?;
                Ok(request.size())
            }
            None => Err(Refusal::NoTransaction),
        }
    }

    /// Gives up the open transaction, if there is one: it has no effect. It takes no memory, and the time of giving
    /// back what the transaction holds.
    pub fn abandon(&mut self)
        ensures { self.new ≡ with_current self.old None }
    {
        drop(mem::replace(&mut self.current, None));
    }
}
