// Messages in which a mutation waits for a stamp.
ghost use Rattle.std.specs.Prelude.{◌≡◌, ℕ};
ghost use Rattle.std.specs.List.{list_any};
ghost use Rattle.fdb_mutations.specs.Stamping.{is_stamped};
ghost use Rattle.fdb_mutations.specs.declared.mutation.Mutation.{Mutation as AnyMutation};
ghost use Rattle.fdb_log.specs.declared.peek.Peek.{Peek as AnyPeek};
ghost use Rattle.fdb_storage.specs.Replays.{messages_of};
ghost use Rattle.fdb_storage.specs.StampedMessages.{has_stamped};

use fdb_log::Peek;
use fdb_mutations::Mutation;
use fdb_txn::TagMsg;

fn any_is_stamped(body: &[(u32, Mutation)]) -> bool
    ensures { result ≡ list_any (λ (sent : ℕ × AnyMutation). is_stamped sent.1) body.now }
{
    body.iter().any(|(_, mutation)| mutation.is_stamped())
}

// Whether some mutation of the message waits for a stamp.
fn has_stamped(message: &TagMsg) -> bool
    ensures { result ≡ has_stamped message.now }
{
    any_is_stamped(message.body.as_slice())
}

/// Whether some mutation of the messages waits for a stamp.
pub(crate) fn have_stamped(messages: &[TagMsg]) -> bool
    ensures { result ≡ list_any has_stamped messages.now }
{
    messages.iter().any(|message| has_stamped(message))
}

fn some_have_stamped(peeks: &[Peek]) -> bool
    ensures { result ≡ list_any (λ (peek : AnyPeek). list_any has_stamped peek.messages) peeks.now }
{
    peeks
        .iter()
        .any(|peek| have_stamped(peek.messages.as_slice()))
}

/// Whether some mutation of the peeks' messages does.
pub(crate) fn any_has_stamped(peeks: &[Peek]) -> bool
    ensures { result ≡ list_any has_stamped (messages_of peeks.now) }
{
    some_have_stamped(peeks)
}
