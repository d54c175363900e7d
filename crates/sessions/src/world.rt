ghost use Rattle.std.specs.Prelude.{◌≡◌, ◌<◌, ◌≤◌, ◌+◌, ◌^◌, [], length, IfOk, IfErr, IfSome, OnOk, OnErr, IsErrOf};
ghost use Rattle.std.specs.Arc.{arc_value};
ghost use Rattle.outside.specs.Held.{held_under, Gives, Leaves};
ghost use Rattle.decl_index.specs.History.{KeepsRanges};
ghost use Rattle.version_board.specs.Versions.{IsVersion};
ghost use Rattle.answers.specs.Cursors.{IsPageOf};
ghost use Rattle.sessions.specs.Worlds.{IsRead, MayRead};
ghost use Rattle.sessions.specs.Publications.{Accepts, Declines, LeavesFiles};

use answers::Page;
use decl_index::{Change, ChangeFault};
use fingerprint::Fingerprinted;
use outside::{LoadFault, Loaded};
use std::alloc::{AllocError, Global};
use std::sync::Arc;
use version_board::Snapshot;

/// What a session asks of the world around it. A world has one client.
pub trait World {
    ghost use Rattle.sessions.specs.Worlds.{WorldState};

    /// What the client has seen, which versions were read, the whole history and the files where they are told, and how
    /// often the world has failed.
    ghost state: { Self → WorldState };

    /// How often the world has failed; it stands still at the end of its type.
    fn faults(&self) -> u64
        ensures { result ≡ (state self.now).faults };

    /// The newest version. It may wait.
    fn read(&mut self) -> Result<Arc<Snapshot, Global>, AllocError>
        ensures version { IfOk result (λ snapshot. IsVersion (state self.new).known (arc_value snapshot)) }
        ensures read { OnOk result (IsRead (state self.old) (state self.new)) }
        ensures no_memory { OnErr result (MayRead (state self.old) (state self.new)) };

    /// Makes a change, and answers its number, or why it is refused; the cause `OutOfMemory` says nothing of the change.
    /// It may wait. From then on the client has seen the change, or a history that refuses it. This is no read.
    fn publish(&mut self, alloc: Global, change: Change) -> Result<u32, ChangeFault>
        requires ranges { KeepsRanges change }
        ensures accepted { IfOk result (λ number. Accepts change number (state self.old) (state self.new)) }
        ensures refused { IfErr result (λ fault. Declines change fault (state self.old) (state self.new)) };

    /// Puts the bytes held under the name in place of what `out` holds. `out` is empty after every other answer than
    /// `Bytes`.
    fn load(&mut self, name: &str, out: &mut Vec<u8>) -> Result<Loaded, LoadFault>
        ensures answer { IfOk result (λ loaded. IfSome (state self.old).holds (λ files.
            Gives (held_under files name.now) loaded out.new.items)) }
        ensures bound { IfOk result (λ loaded. Leaves loaded out.new.items) }
        ensures empty { OnErr result (out.new.items ≡ []) }
        ensures files { LeavesFiles (IsErrOf result LoadFault.Failed) (state self.old) (state self.new) };

    /// At most `count` items of the list of the environment, from the item `from` on. It may wait.
    fn page(
        &mut self,
        alloc: Global,
        env: &Fingerprinted,
        from: u64,
        count: u64,
    ) -> Result<Page, AllocError>
        requires from { from < 2 ^ 62 }
        requires count { (1 ≤ count) × (count ≤ 1000) }
        ensures page { IfOk result (λ page. IsPageOf env.now from count page) }
        ensures bound { IfOk result (λ page. from + length page.items < 2 ^ 62) }
        ensures same { state self.new ≡ state self.old };
}
