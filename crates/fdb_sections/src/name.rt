ghost use Rattle.std.specs.Prelude.{[], ⊤};
ghost use Rattle.fdb_client.specs.declared.program.Transcript.{Transcript as ATranscript};
ghost use Rattle.fdb_proxy.specs.declared.config.Config.{Config as TheConfig};

use fdb_book::BookName;
use fdb_roles::Layer;
use std::marker::{Brand, PhantomData};

/// Names a cluster by the cells of its book and by its configuration. What has one name is of one cluster.
pub trait ClusterName: BookName {
    // How many of each role there are, and how keys are divided among them at the start.
    ghost config: { TheConfig };
}

impl ClusterName for Brand {
    ghost config = { record { proxies = 1; logs = 1; resolver_splits = []; shard_splits = []; book = 1 } };
}

/// Names a database: a cluster, and which transactions are committed there.
pub trait DatabaseName: BookName {
    // How many of each role there are, and how keys are divided among them at the start.
    ghost config: { TheConfig };

    // The transcripts of the transactions that may be committed.
    ghost allows: { ATranscript → Type 0 };
}

/// The name of the database that is the cluster `B`, where the transactions of the layer `L` are committed, and no
/// others.
pub struct Layered<B, L> {
    cluster: PhantomData<B>,
    layer: PhantomData<L>,
}

impl<B: ClusterName, L: Layer> BookName for Layered<B, L> {
    ghost cells = { B.cells };
}

impl<B: ClusterName, L: Layer> DatabaseName for Layered<B, L> {
    ghost config = { B.config };

    ghost allows = { L.allows };
}

/// The layer of all transactions, of which nothing is promised.
pub struct Everything;

impl Layer for Everything {
    ghost allows = { λ transcript. ⊤ };

    ghost holds = { λ map. ⊤ };

    fn starts() {}

    fn keeps() {}
}

/// The name of the database that is the cluster `B`, where everybody may commit whatever they like.
pub type Open<B> = Layered<B, Everything>;
