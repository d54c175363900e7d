ghost use Rattle.std.specs.Prelude.{◌≡◌, ◌≤◌, [], None};
ghost use Rattle.outside.specs.Causes.{Rose};
ghost use Rattle.sessions.specs.RunningStates.{running_state};
ghost use Rattle.sessions.specs.Served.{ServesWith};

use crate::ending::Ended;
use crate::hub::Hub;
use crate::running_world::RunningWorld;
use crate::serving::serve;
use crate::session::Session;
use json_rpc::Frames;
use listing::Listing;
use outside::{End, Shelf, Sink, Source};
use prefetch::Sender;
use reconstruction::Rebuild;
use std::alloc::Global;
use std::sync::Wait;
use std::thread::Threads;
use version_board::{Naming, Pass};

/// One client: its end of the program, its session, what was read of its frames, its pass of the board, and where workers
/// lengthen listings ahead of it, who hands them to these.
#[derive(Drop)]
pub struct Client<J: Naming, S: Drop, K: Drop, H: Drop> {
    pub end: End<S, K, H>,
    pub session: Session,
    pub frames: Frames,
    pub pass: Pass<J>,
    pub ahead: Option<Sender<Listing<Rebuild>>>,
}

/// Serves a client of a hub until an exit, the end of its input or a fault, and gives it back with the status of its
/// session. The bodies of its messages are the frames of its source, and each reply is one frame to its sink, written
/// before the next message is read. Where it has a sender, the listing of each page that is answered is handed to be
/// lengthened ahead. It may wait for another client's publication, for a listing that another one or a worker searches, or
/// for another call on the queue of the workers. Of the source more bytes may have been taken than the messages have.
#[tactic(auto, using(crate::proofs::Statuses::statuses))]
pub fn serve_client<
    J: Naming,
    S: Source + Drop,
    K: Sink + Drop,
    H: Shelf + Drop,
    R: Threads + Wait + Drop + Sync,
>(rt: &R, alloc: Global, hub: &Hub<J, R>, client: Client<J, S, K, H>) -> (Client<J, S, K, H>, Ended)
    requires new { client.frames ≡ record { place = 0; held = []; fault = None } }
    ensures serves { ServesWith client.session result.0.session (S.left client.end.source) (K.written client.end.sink) (K.written result.0.end.sink)
        (running_state client.pass (H.holds client.end.shelf) (H.faults client.end.shelf))
        (running_state result.0.pass (H.holds result.0.end.shelf) (H.faults result.0.end.shelf)) result.1 }
    ensures holds { H.holds result.0.end.shelf ≡ H.holds client.end.shelf }
    ensures load_later { H.faults client.end.shelf ≤ H.faults result.0.end.shelf }
    ensures read_later { S.faults client.end.source ≤ S.faults result.0.end.source }
    ensures read_cause { result.1.code ≡ 4 → Rose (S.faults client.end.source) (S.faults result.0.end.source) }
    ensures write_later { K.faults client.end.sink ≤ K.faults result.0.end.sink }
    ensures write_cause { result.1.code ≡ 5 → Rose (K.faults client.end.sink) (K.faults result.0.end.sink) }
{
    let Client {
        end,
        mut session,
        mut frames,
        pass,
        ahead,
    } = client;
    let End {
        mut source,
        mut sink,
        shelf,
    } = end;
    let mut world = RunningWorld {
        rt,
        hub,
        pass,
        shelf,
        ahead,
    };
    let ending = serve(
        rt,
        alloc,
        &mut session,
        &mut frames,
        &mut world,
        &mut source,
        &mut sink,
    );
    let client = Client {
        end: End {
            source,
            sink,
            shelf: world.shelf,
        },
        session,
        frames,
        pass: world.pass,
        ahead: world.ahead,
    };
    (client, ending.status())
}
