ghost use Rattle.std.specs.Prelude.{◌≡◌, map};
ghost use Rattle.fdb_proxy.specs.Askers.{granted};

use fdb_keys::{Items, Refusal};
use std::alloc::Global;
use std::marker::Model;
use std::mem;

/// A read-version proxy: the clients that asked for a read version and haven't got one, each with the greatest version
/// that it has seen.
#[derive(Drop)]
pub struct GrvCore {
    asked: Vec<(u32, u64)>,
}

impl Model for GrvCore {
    ghost use Rattle.std.specs.Prelude.{List};
    ghost use Rattle.fdb_proxy.specs.Askers.{Asker};

    ghost Value = { List Asker };

    ghost view = { λ core. core.asked.items };
}

impl GrvCore {
    ghost use Rattle.std.specs.Prelude.{◌≡◌, [], ◌∷◌, ◌++◌, None, OnErr, map};
    ghost use Rattle.fdb_keys.specs.Answers.{Answers};
    ghost use Rattle.fdb_proxy.specs.Askers.{granted};

    /// A proxy that nobody has asked. It takes no memory.
    pub fn new(alloc: Global) -> Self
        ensures { result ≡ [] }
    {
        GrvCore {
            asked: Vec::new(alloc),
        }
    }

    /// The client asks for a read version that isn't below the version `seen`, the greatest that it knows of. A client
    /// may ask several times, and gets an answer to each. Refused only as `NoMemory`, and then nothing changes.
    pub fn ask(&mut self, client: u32, seen: u64) -> Result<(), Refusal>
        ensures answers { Answers result None (λ _. self.new ≡ self.old ++ (client, seen) ∷ []) }
        ensures err { OnErr result (self.new ≡ self.old) }
    {
        self.asked.push((client, seen))?;
        Ok(())
    }

    /// Those who ask, in the order in which they did, each with the version that it has seen. It takes no memory.
    pub fn askers(&self) -> &[(u32, u64)]
        ensures { result.now ≡ self.now }
    {
        self.asked.as_slice()
    }

    /// Answers all who asked, in the order in which they did: each client with its read version, which is the greater
    /// one of the committed version and of the version that it has seen. Nobody asks any more then. It takes no memory.
    pub fn grant(&mut self, committed: u64) -> Items<(u32, u64)>
        ensures granted { result ≡ map (granted committed) self.old }
        ensures left { self.new ≡ [] }
    {
        let nobody = Vec::new(*self.asked.allocator());
        let mut granted = mem::replace(&mut self.asked, nobody);
        raise(granted.as_mut_slice(), committed);
        Items::from_vec(granted)
    }
}

// Each version becomes the committed one where it is below that.
fn raise(asked: &mut [(u32, u64)], committed: u64)
    ensures { asked.new ≡ map (granted committed) asked.old }
{
    for (_, version) in asked.iter_mut() {
        *version = committed.max(*version);
    }
}
