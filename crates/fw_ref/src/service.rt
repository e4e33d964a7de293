//! What a replica executes: any service that does what the store does.

ghost use Rattle.std.specs.Prelude.{◌≡◌, ◌<◌, List, IfOk, OnOk, OnErr};
ghost use Rattle.fw_op.specs.declared.start.Start.{Start};
ghost use Rattle.fw_store.specs.Store.{applied};

use fw_list::Memory;
use fw_op::{Op, Reply};
use fw_store::Store;

/// A service: records, and operations on them. Each service means its records, by owner and key.
pub trait Service {
    ghost records: { Self → List Start };

    /// Does what a client asks, and gives the reply. After want of memory the records are as they were.
    fn apply(&mut self, client: u32, op: &Op) -> Result<Reply, Memory>
        requires client { client < 8 }
        ensures reply { IfOk result (λ reply. reply ≡ (applied client op.now (records self.old)).0) }
        ensures after { OnOk result (records self.new ≡ (applied client op.now (records self.old)).1) }
        ensures err { OnErr result (records self.new ≡ records self.old) };
}

impl Service for Store {
    ghost records = { λ store. store };

    fn apply(&mut self, client: u32, op: &Op) -> Result<Reply, Memory> {
        Store::apply(self, client, op)
    }
}
