ghost use Rattle.std.specs.Prelude.{◌≡◌};
ghost use Rattle.version_board.specs.Versions.{IsVersion};

use crate::snapshot_tests::publication;
use lists::Items;
use sessions::Hub;
use std::alloc::{AllocError, Global};
use std::marker::Brand;
use std::process::Abort;
use std::sync::{Mutex, Wait};
use std::test::Fail;
use std::thread;
use std::thread::Threads;
use version_board::{Naming, Opened, Pass, Publisher, Snapshot, publish_and_learn, start_board};

/// A client that publishes: what it has seen, the newest version that it was told, and the sum of all that it was told.
#[derive(Drop)]
struct Client<J: Naming> {
    pass: Pass<J>,
    newest: u32,
    sum: u64,
}

/// Publishes nothing a thousand times, as long as each version is newer than all that the client was told, and seen by then.
fn publish_often<J: Naming, R: Wait + Drop>(
    rt: &R,
    alloc: Global,
    publisher: &Mutex<Publisher<J, R>>,
    client: &mut Client<J>,
) {
    for _ in 0..1000 {
        let change = publication(alloc, Items::new(alloc));
        match publish_and_learn(rt, publisher, alloc, &mut client.pass, change) {
            Ok(number) => {
                if number <= client.newest || number > client.pass.seen() {
                    return;
                }
                client.newest = number;
                client.sum = client.sum.saturating_add(u64::from(number));
            }
            Err(_) => return,
        }
    }
}

/// All clients publish at once, each in a thread.
fn all_publish<J: Naming + Send + Sync, R: Threads + Wait + Drop + Send + Sync>(
    rt: &R,
    alloc: Global,
    publisher: &Mutex<Publisher<J, R>>,
    clients: &mut [Client<J>],
) {
    thread::for_each_mut(
        rt,
        clients,
        2,
        &|_: usize, client: &mut Client<J>| { publish_often(rt, alloc, publisher, client) },
    );
}

/// Whether two clients were told all versions from 1 to 2000, one of them the newest, and what one has seen is a
/// beginning of what the other has.
fn are_told_all<J: Naming>(one: &Client<J>, other: &Client<J>) -> bool {
    let is_one_history = one.pass.prefix().begins_with(other.pass.prefix())
        || other.pass.prefix().begins_with(one.pass.prefix());
    is_one_history
        && one.newest.max(other.newest) == 2000
        && one.sum.saturating_add(other.sum) == 2_001_000
}

fn publish_at_once<J: Naming + Send + Sync, R: Threads + Wait + Abort + Copy + Drop + Send + Sync>(
    rt: R,
    alloc: Global,
    opened: Opened,
    first: Snapshot,
) -> Result<(), AllocError>
    requires book { opened.seen.book ≡ J.book }
    requires first { IsVersion J.first first }
{
    let (publisher, passes) = start_board::<J, R>(rt, alloc, opened, first, 2)?;
    let hub = Hub::new(alloc, publisher);
    let mut clients = Vec::new(alloc);
    for pass in passes {
        clients.push(Client {
            pass,
            newest: 0,
            sum: 0,
        })?;
    }
    all_publish(&rt, alloc, &hub.publisher, clients.as_mut_slice());
    match clients.as_slice() {
        [one, other] => assert!(rt; are_told_all(one, other)),
        _ => assert!(rt; false),
    }
    Ok(())
}

// Two clients at once, each of which publishes a thousand times.
#[test]
fn the_versions_that_a_client_is_told_rise(rt: HostRuntime) -> Result<(), Fail> {
    let first = Snapshot::empty(rt.alloc())?;
    publish_at_once::<Brand, _>(&rt, rt.alloc(), Opened::new(), first)?;
    Ok(())
}
